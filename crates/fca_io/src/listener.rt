//! Ends that are read and written, and listeners that accept them.

ghost use Rattle.std.specs.Prelude.{◌≡◌, ◌≤◌, ℕ, Bool, true, false, List, Option, is_some, Result, OnOk, OnErr, IfOk};
ghost use Rattle.std.specs.Option.{option_map};
ghost use Rattle.fca_io.specs.Faults.{Rose};
ghost use Rattle.fca_io.specs.Links.{Ends, AcceptsFirst, with_given, IsWithinRoom, MayListenAt};

use crate::outside::{Failed, Sink, Source};

/// An end that is read and written. What was written stands beside what is read, and the other way round.
pub trait Duplex: Source + Sink {
    ghost held_beside: { (end : Self) → Self.Source.beside end ≡ Self.Sink.held end };

    ghost writes_beside: { (end : Self) → Self.Source.faults_beside end ≡ Self.Sink.faults end };

    ghost left_beside: { (end : Self) → Self.Sink.beside end ≡ Self.Source.left end };

    ghost reads_beside: { (end : Self) → Self.Sink.read_counts_beside end ≡ record { reads = Self.Source.reads end; faults = Self.Source.faults end } };
}

/// A listener accepts ends, and takes them back.
pub trait Listener {
    type End: Duplex + Send + Drop;

    // whether it listens
    ghost listens: { Self → Bool };

    // the address at which it listens, if it tells it
    ghost listens_at: { Self → Option (List ℕ) };

    // the ends to come and those given back, if it tells them
    ghost ends: { Self → Option (Ends Self.End) };

    // the faults of `open`, counted for each address
    ghost open_faults: { Self → List ℕ → ℕ };

    // the faults of `accept`
    ghost accept_faults: { Self → ℕ };

    /// Listens at the address.
    fn open(&mut self, address: &[u8]) -> Result<(), Failed>
        requires { listens self.old ≡ false }

        ensures opened { OnOk result ((listens self.new ≡ true) × MayListenAt (listens_at self.new) address.now) }
        ensures closed { OnErr result ((listens self.new ≡ false) × (listens_at self.new ≡ listens_at self.old)) }
        ensures tells { is_some (listens_at self.new) ≡ is_some (listens_at self.old) }
        ensures ends { ends self.new ≡ ends self.old }
        ensures within { IsWithinRoom (ends self.old) }

        ensures quiet { OnOk result ((other : List ℕ) → open_faults self.new other ≡ open_faults self.old other) }
        ensures quiet_accept { OnOk result (accept_faults self.new ≡ accept_faults self.old) }
        ensures failed { OnErr result (Rose (open_faults self.old address.now) (open_faults self.new address.now)) }
        ensures only_rise { (other : List ℕ) → open_faults self.old other ≤ open_faults self.new other }
        ensures only_rise_accept { accept_faults self.old ≤ accept_faults self.new };

    /// Accepts the first of the ends to come.
    fn accept(&mut self) -> Result<Self::End, Failed>
        requires { listens self.old ≡ true }

        ensures first { IfOk result (λ end. AcceptsFirst (ends self.old) (ends self.new) end) }
        ensures none { OnErr result (ends self.new ≡ ends self.old) }
        ensures within { IsWithinRoom (ends self.old) }
        ensures same { (listens self.new ≡ listens self.old) × (listens_at self.new ≡ listens_at self.old) }

        ensures quiet { OnOk result (accept_faults self.new ≡ accept_faults self.old) }
        ensures quiet_open { OnOk result ((other : List ℕ) → open_faults self.new other ≡ open_faults self.old other) }
        ensures failed { OnErr result (Rose (accept_faults self.old) (accept_faults self.new)) }
        ensures only_rise { (other : List ℕ) → open_faults self.old other ≤ open_faults self.new other }
        ensures only_rise_accept { accept_faults self.old ≤ accept_faults self.new };

    /// Takes an end back. It comes last among those given back, or is dropped if there is no room.
    fn give_back(&mut self, end: Self::End)
        ensures given { ends self.new ≡ option_map (with_given end) (ends self.old) }
        ensures within { IsWithinRoom (ends self.old) }
        ensures same { (listens self.new ≡ listens self.old) × (listens_at self.new ≡ listens_at self.old) }

        ensures quiet { (other : List ℕ) → open_faults self.new other ≡ open_faults self.old other }
        ensures quiet_accept { accept_faults self.new ≡ accept_faults self.old };
}
