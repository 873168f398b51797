//! Two sessions at once, over sockets of the system.

ghost use Rattle.std.specs.Prelude.{◌≡◌, true, false, IfSome};

use crate::tables::opened;
use expert_sessions::{Ended, serve_ends};
use fca_io::{Duplex, Listener};
use fca_model::Memory;
use real_ends::TcpLink;
use std::alloc::Global;
use std::io::{self, Read, Write};
use std::net::TcpStream;
use std::sync::Wait;
use std::test::Fail;
use std::thread::{Threads, join};

/// Listens at the first port that is free, and answers the address.
fn listen_at_free_port<L: Listener>(alloc: Global, link: &mut L) -> Option<String>
    requires { L.listens link.old ≡ false }
    ensures { IfSome result (λ _. L.listens link.new ≡ true) }
{
    for port in 20_000..30_000u32 {
        let address = format!(in alloc; "127.0.0.1:{port}").ok()?;
        if link.open(address.as_bytes()).is_ok() {
            return Some(address);
        }
    }
    None
}

/// The next bytes that an expert is told who says the line.
fn exchange_line<const N: usize>(stream: &mut TcpStream, line: &[u8]) -> io::Result<[u8; N]> {
    stream.write_all(line)?;
    let mut bytes = [0; N];
    stream.read_exact(&mut bytes)?;
    Ok(bytes)
}

/// What two experts are told who both draw, before the first of them quits and the second draws again.
fn draw_and_quit(mut first: TcpStream, mut second: TcpStream) -> io::Result<[[u8; 63]; 2]> {
    let asked = [
        exchange_line(&mut first, b"draw\n")?,
        exchange_line(&mut second, b"draw\n")?,
    ];
    let _bye: [u8; 4] = exchange_line(&mut first, b"quit\n")?;
    let _asked: [u8; 23] = exchange_line(&mut second, b"draw\n")?;
    Ok(asked)
}

/// How the sessions of two lines over the two ends ended, which are closed then.
fn serve_both<R: Threads + Wait + Sync, E: Duplex + Send + Drop>(
    rt: &R,
    alloc: Global,
    first: E,
    second: E,
) -> Result<Vec<Ended>, Memory> {
    let mut ends = Vec::new(alloc);
    ends.push(first)?;
    ends.push(second)?;
    match serve_ends(rt, alloc, opened(alloc, 2)?, ends, 2, 9) {
        Ok(served) => Ok(served.ended),
        Err(_) => Err(Memory),
    }
}

#[test]
fn sessions_run_at_once_over_sockets(rt: HostRuntime) -> Result<(), Fail> {
    let alloc = rt.alloc();
    let mut link = TcpLink::new(&rt);
    let Some(address) = listen_at_free_port(alloc, &mut link) else {
        return Err("no port is free".into());
    };
    let first = TcpStream::connect(&rt, address.as_str())?;
    let first_end = link.accept()?;
    let second = TcpStream::connect(&rt, address.as_str())?;
    let second_end = link.accept()?;
    let (asked, ended) = join(
        &rt,
        move || draw_and_quit(first, second),
        || serve_both(&rt, alloc, first_end, second_end),
    );
    assert_eq!(rt;
        asked?,
        [
            *b"exploration 1\nexpert 1\nattributes 2\na\nb\nask .. XX {} -> {a, b}\n",
            *b"exploration 1\nexpert 2\nattributes 2\na\nb\nask .. XX {} -> {a, b}\n",
        ]
    );
    assert_eq!(rt; ended?.as_slice(), [Ended::Quit, Ended::Limit].as_slice());
    Ok(())
}
