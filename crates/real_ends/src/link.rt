//! The sockets of the system.

ghost use Rattle.std.specs.Prelude.{◌≡◌, ◌≤◌, true, false};
ghost use Rattle.fca_io.specs.Faults.{one_more};

use crate::address::is_address;
use crate::connection::Connection;
use fca_io::{Duplex, Failed, Listener, Sink, Source};
use std::marker::Model;
use std::net::{Net, OpenListener, TcpListener, TcpStream};

/// An accepted socket. It counts its reads. A write that takes nothing is a fault.
#[derive(Drop)]
pub struct TcpEnd {
    connection: Connection,
    reads: u64,
    read_faults: u64,
    write_faults: u64,
}

impl Source for TcpEnd {
    ghost use Rattle.std.specs.Prelude.{None, Some};

    ghost left = { λ _. None };

    ghost faults = { λ e. e.read_faults };

    ghost reads = { λ e. Some e.reads };

    ghost beside = { λ _. None };

    ghost faults_beside = { λ e. e.write_faults };

    fn read(&mut self, into: &mut [u8]) -> Result<usize, Failed> {
        self.reads = self.reads.saturating_add(1);
        match self.connection.read(into) {
            Ok(count) => Ok(count),
            Err(_) => {
                self.read_faults = self.read_faults.saturating_add(1);
                Err(Failed)
            }
        }
    }
}

impl Sink for TcpEnd {
    ghost use Rattle.std.specs.Prelude.{None, Some};

    ghost held = { λ _. None };

    ghost faults = { λ e. e.write_faults };

    ghost whole_writes = { λ _. None };

    ghost beside = { λ _. None };

    ghost read_counts_beside = { λ e. record { reads = Some e.reads; faults = e.read_faults } };

    fn write(&mut self, from: &[u8]) -> Result<usize, Failed> {
        match self.connection.write(from) {
            Ok(count) if count > 0 => Ok(count),
            _ => {
                self.write_faults = self.write_faults.saturating_add(1);
                Err(Failed)
            }
        }
    }
}

impl Duplex for TcpEnd {
    ghost use Rattle.std.proofs.Common.{refl};

    ghost held_beside = { λ _. refl };

    ghost writes_beside = { λ _. refl };

    ghost left_beside = { λ _. refl };

    ghost reads_beside = { λ _. refl };
}

/// A listening socket, once it is open.
#[derive(Drop)]
pub struct TcpLink<'a, R: Net<Listener = TcpListener, Stream = TcpStream>> {
    rt: &'a R,
    listener: Option<TcpListener>,
    door: Option<TcpListener>,
    faults: u64,
}

impl<'a, R: Net<Listener = TcpListener, Stream = TcpStream>> Model for TcpLink<'a, R> {
    ghost use Rattle.std.specs.Prelude.{is_some};
    ghost use Rattle.real_ends.specs.Sockets.{Listening};

    ghost Value = { Listening };

    ghost view = { λ l. record { listens = is_some l.listener; faults = l.faults } };
}

impl<'a, R: Net<Listener = TcpListener, Stream = TcpStream>> TcpLink<'a, R> {
    /// A link that does not listen yet.
    pub fn new(rt: &'a R) -> TcpLink<'a, R>
        ensures closed { result.listens ≡ false }
        ensures faultless { result.faults ≡ 0 }
    {
        TcpLink {
            rt,
            listener: None,
            door: None,
            faults: 0,
        }
    }

    fn count_fault(&mut self) -> Failed
        ensures counted { self.new.faults ≡ one_more self.old.faults }
        ensures only_rise { self.old.faults ≤ self.new.faults }
        ensures same { self.new.listens ≡ self.old.listens }
    {
        self.faults = self.faults.saturating_add(1);
        Failed
    }
}

impl<'a, R: Net<Listener = TcpListener, Stream = TcpStream>> Listener for TcpLink<'a, R> {
    type End = TcpEnd;

    ghost use Rattle.std.specs.Prelude.{None};

    ghost listens = { λ l. l.listens };

    ghost listens_at = { λ _. None };

    ghost ends = { λ _. None };

    ghost open_faults = { λ l _. l.faults };

    ghost accept_faults = { λ l. l.faults };

    fn open(&mut self, address: &[u8]) -> Result<(), Failed> {
        let Ok(address) = str::from_utf8(address) else {
            return Err(self.count_fault());
        };
        if !is_address(address.as_bytes()) {
            return Err(self.count_fault());
        }
        match TcpListener::bind(self.rt, address) {
            Ok(listener) => {
                self.door = listener.try_clone().ok();
                self.listener = Some(listener);
                Ok(())
            }
            Err(_) => Err(self.count_fault()),
        }
    }

    fn accept(&mut self) -> Result<TcpEnd, Failed> {
        let accepted = match &self.listener {
            Some(listener) => listener.accept().ok(),
            None => None,
        };
        let Some((stream, _)) = accepted else {
            return Err(self.count_fault());
        };
        Ok(TcpEnd {
            connection: Connection::new(stream, self.door.take()),
            reads: 0,
            read_faults: 0,
            write_faults: 0,
        })
    }

    fn give_back(&mut self, _end: TcpEnd) {}
}
