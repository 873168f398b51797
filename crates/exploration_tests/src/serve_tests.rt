//! Two sessions of `serve` at once: each client quits only after the other was asked.

ghost use Rattle.std.specs.Prelude.{◌≡◌, ◌-◌, ◌^◌, true, false, None, IfOk};

use fca_io::{Duplex, Failed, Listener, MemoryShelf, MemorySink, Sink, Source, SureSource};
use fca_model::{Memory, Word};
use fca_run::run;
use std::alloc::Global;
use std::hint;
use std::sync::Wait;
use std::sync::atomic::{AtomicU64, Ordering};
use std::test::Fail;
use std::thread::Threads;

/// How often a client looks whether the other was asked, before it quits anyway.
const LOOKS: u64 = 500_000_000;

/// The lines that a client sends.
const FIRST: &[u8] = b"draw\n";

const LINES: &[u8] = b"draw\nquit\n";

/// A client that sends its second line once the other client was sent a question. It tells nothing of its bytes.
#[derive(Drop)]
struct Client<'a> {
    asked: &'a AtomicU64,
    other: &'a AtomicU64,
    sent: usize,
    met: bool,
}

impl Client<'_> {
    /// Looks whether the other client was asked.
    fn meet(&mut self) {
        for _ in 0..LOOKS {
            if self.other.load(Ordering::SeqCst) == 1 {
                self.met = true;
                return;
            }
            hint::spin_loop();
        }
    }
}

impl Source for Client<'_> {
    ghost left = { λ _. None };

    ghost faults = { λ _. 0 };

    ghost reads = { λ _. None };

    ghost beside = { λ _. None };

    ghost faults_beside = { λ _. 0 };

    fn read(&mut self, into: &mut [u8]) -> Result<usize, Failed> {
        if self.sent == FIRST.len() {
            self.meet();
        }
        match LINES.get(self.sent) {
            Some(byte) => {
                into[0] = *byte;
                self.sent = self.sent.saturating_add(1);
                Ok(1)
            }
            None => Ok(0),
        }
    }
}

impl Sink for Client<'_> {
    ghost use Rattle.fca_io.specs.Faults.{ReadCounts};

    ghost held = { λ _. None };

    ghost faults = { λ _. 0 };

    ghost beside = { λ _. None };

    ghost whole_writes = { λ _. None };

    ghost read_counts_beside = { λ _. record { reads = None; faults = 0 } };

    fn write(&mut self, from: &[u8]) -> Result<usize, Failed> {
        if from.starts_with(b"ask ") {
            self.asked.store(1, Ordering::SeqCst);
        }
        Ok(from.len())
    }
}

impl Duplex for Client<'_> {
    ghost use Rattle.std.proofs.Common.{refl};

    ghost held_beside = { λ _. refl };

    ghost writes_beside = { λ _. refl };

    ghost left_beside = { λ _. refl };

    ghost reads_beside = { λ _. refl };
}

/// Clients that are to come, and how many were given back that met the other. It tells nothing of them.
#[derive(Drop)]
struct Clients<'a> {
    listens: bool,
    to_come: Vec<Client<'a>>,
    met: u64,
}

impl<'a> Listener for Clients<'a> {
    type End = Client<'a>;

    ghost use Rattle.std.specs.Prelude.{◌-◌, ◌^◌, None};

    ghost listens = { λ s. s.listens };

    ghost listens_at = { λ _. None };

    ghost ends = { λ _. None };

    ghost open_faults = { λ _ _. 2 ^ 64 - 1 };

    ghost accept_faults = { λ _. 2 ^ 64 - 1 };

    fn open(&mut self, _address: &[u8]) -> Result<(), Failed> {
        self.listens = true;
        Ok(())
    }

    fn accept(&mut self) -> Result<Client<'a>, Failed> {
        self.to_come.pop().ok_or(Failed)
    }

    fn give_back(&mut self, end: Client<'a>) {
        self.met = self.met.saturating_add(u64::from(end.met));
    }
}

/// The words of the command.
fn words(alloc: Global) -> Result<Vec<Word>, Memory> {
    let mut words = Vec::new(alloc);
    for text in ["serve", "F", "--experts", "2", "--listen", "x"] {
        words.push(Word::new(alloc, text.as_bytes())?)?;
    }
    Ok(words)
}

/// The status of the command, and how many of its clients met.
fn serve<R: Threads + Wait + Sync>(rt: &R, alloc: Global) -> Result<(u8, u64), Memory> {
    let mut shelf = MemoryShelf::new(alloc, &[])?;
    shelf.put(b"F", b"B\n\n0\n2\n\na\nb\n")?;
    let mut input = SureSource::new(alloc, b"")?;
    let mut out = MemorySink::new(alloc, 1000, &[], 1000)?;
    let mut err = MemorySink::new(alloc, 1000, &[], 1000)?;
    let flags = [AtomicU64::new(0), AtomicU64::new(0)];
    let mut to_come = Vec::new(alloc);
    to_come.push(Client {
        asked: &flags[0],
        other: &flags[1],
        sent: 0,
        met: false,
    })?;
    to_come.push(Client {
        asked: &flags[1],
        other: &flags[0],
        sent: 0,
        met: false,
    })?;
    let mut link = Clients {
        listens: false,
        to_come,
        met: 0,
    };
    let words = words(alloc)?;
    let status = run(
        rt, alloc, &words, &mut shelf, &mut input, &mut out, &mut err, &mut link,
    );
    Ok((status, link.met))
}

#[test]
fn sessions_run_at_once(rt: HostRuntime) -> Result<(), Fail> {
    assert_eq!(rt; serve(&rt, rt.alloc())?, (6, 2));
    Ok(())
}
