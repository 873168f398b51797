//! An accepted socket, from its first bytes until it is closed.

ghost use Rattle.std.specs.Io.{ReadsAtMost, WritesAtMost};

use std::io::{self, Read, Write};
use std::net::{Shutdown, TcpListener, TcpStream};
use std::os::fd::OwnedFd;
use std::time::Duration;

/// How often a socket is read before it is closed.
const CLOSING_READS: usize = 64;

/// The most bytes of such a read.
const CLOSING_READ_BYTES: usize = 16_384;

/// How many milliseconds such a read waits for a byte.
const PATIENCE: u64 = 50;

/// An accepted socket. The first one owns the door, the socket that listens. It closes the door at its first read or write, when all ends
/// have been accepted.
pub(crate) struct Connection {
    stream: TcpStream,
    door: Option<TcpListener>,
}

impl Connection {
    pub(crate) fn new(stream: TcpStream, door: Option<TcpListener>) -> Connection {
        let _ = stream.set_nodelay(true);
        Connection { stream, door }
    }

    pub(crate) fn read(&mut self, into: &mut [u8]) -> io::Result<usize>
        ensures { ReadsAtMost result into.new }
    {
        self.close_door();
        self.stream.read(into)
    }

    pub(crate) fn write(&mut self, from: &[u8]) -> io::Result<usize>
        ensures { WritesAtMost result from.now }
    {
        self.close_door();
        self.stream.write(from)
    }

    /// Turns away whoever has connected after the last accepted end.
    fn close_door(&mut self) {
        if let Some(door) = self.door.take() {
            let _ = TcpStream::from(OwnedFd::from(door)).shutdown(Shutdown::Both);
        }
    }
}

/// Ends the writing side first and then reads the rest, since a socket that is closed with unread bytes discards what the peer has not read
/// yet. It stops reading at the end of the peer, after a while without a byte, or after `CLOSING_READS` reads.
impl Drop for Connection {
    fn drop(self) {
        let Connection {
            mut stream,
            door: _,
        } = self;
        let _ = stream.shutdown(Shutdown::Write);
        if stream
            .set_read_timeout(Some(Duration::from_millis(PATIENCE)))
            .is_ok()
        {
            read_rest(&mut stream);
        }
    }
}

/// Reads the rest, with at most `CLOSING_READS` reads.
fn read_rest(stream: &mut TcpStream) {
    let mut bytes = [0; CLOSING_READ_BYTES];
    for _ in 0..CLOSING_READS {
        match stream.read(&mut bytes) {
            Ok(count) if count > 0 => {}
            _ => return,
        }
    }
}
