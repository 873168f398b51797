//! The outside: sources, sinks and shelves, which may fail and count their faults.

ghost use Rattle.std.specs.Prelude.{◌≡◌, ◌<◌, ◌≤◌, ℕ, List, length, vec_len, Option, Result, OnOk, OnErr, IfOk, IsErrOf};
ghost use Rattle.std.specs.Option.{option_map};
ghost use Rattle.std.specs.Io.{ReadsAtMost};
ghost use Rattle.std.specs.Io.KnownBytes.{Keeps, ReadConsumes, WriteAppends};
ghost use Rattle.fca_io.specs.Faults.{Rose, ReadCounts, one_more, counts_whole};
ghost use Rattle.fca_io.specs.Shelves.{Told, MayHold, MayExceed};

use fca_model::NO_MEMORY;
use std::alloc::{AllocError, Global};
use thiserror::Error;

/// The words for a read that failed.
pub const READ_FAULT: &str = "read fault";

/// The words for bytes that are more than the limit.
pub const TOO_LONG: &str = "too long";

/// The words for a write that failed.
pub const WRITE_FAULT: &str = "write fault";

/// A call of the outside failed.
#[derive(Clone, Copy, Debug)]
pub struct Failed;

/// Why bytes were not taken.
#[derive(Clone, Copy, Debug, Error)]
pub enum Taken {
    #[error("{READ_FAULT}")]
    Failed,
    #[error("{TOO_LONG}")]
    Long,
    #[error("{NO_MEMORY}")]
    Memory,
}

impl From<Failed> for Taken {
    ghost use Rattle.fca_io.specs.declared.outside.Taken.TheVariants as taken;

    ghost from_gives = { λ _ t. t ≡ taken.Failed };

    fn from(_failed: Failed) -> Taken {
        Taken::Failed
    }
}

impl From<AllocError> for Taken {
    ghost use Rattle.fca_io.specs.declared.outside.Taken.TheVariants as taken;

    ghost from_gives = { λ _ t. t ≡ taken.Memory };

    fn from(_error: AllocError) -> Taken {
        Taken::Memory
    }
}

/// Why a text was not written whole.
#[derive(Clone, Copy, Debug, Error)]
pub enum Put {
    #[error("{WRITE_FAULT}")]
    Failed,
}

impl From<Failed> for Put {
    fn from(_failed: Failed) -> Put {
        Put::Failed
    }
}

/// A stream of bytes to read.
pub trait Source {
    // the bytes left, if the source tells them
    ghost left: { Self → Option (List ℕ) };

    // how many of its reads failed
    ghost faults: { Self → ℕ };

    // how many reads were made, if they are counted
    ghost reads: { Self → Option ℕ };

    // bytes beside the source, such as those sent the other way, if it tells them
    ghost beside: { Self → Option (List ℕ) };

    // a count beside the source, such as the faults of writes
    ghost faults_beside: { Self → ℕ };

    /// Moves the next bytes into the front of `into`. The result is their number, which is 0 only at the end.
    fn read(&mut self, into: &mut [u8]) -> Result<usize, Failed>
        requires { 0 < length into.old }

        ensures bound { ReadsAtMost result into.new }
        ensures bytes { ReadConsumes (left self.old) (left self.new) result into.new }

        ensures quiet { OnOk result (faults self.new ≡ faults self.old) }
        ensures failed { OnErr result (Rose (faults self.old) (faults self.new)) }
        ensures only_rise { faults self.old ≤ faults self.new }
        ensures counted { reads self.new ≡ option_map one_more (reads self.old) }

        ensures beside { Keeps (beside self.old) (beside self.new) }
        ensures same_beside { faults_beside self.new ≡ faults_beside self.old };
}

/// A stream of bytes to write.
pub trait Sink {
    // the bytes held, if the sink tells them
    ghost held: { Self → Option (List ℕ) };

    // how many of its writes failed
    ghost faults: { Self → ℕ };

    // bytes beside the sink, such as those still to come the other way, if it tells them
    ghost beside: { Self → Option (List ℕ) };

    // how many writes were taken whole, if they are counted
    ghost whole_writes: { Self → Option ℕ };

    // the counts beside the sink, such as those of reads
    ghost read_counts_beside: { Self → ReadCounts };

    /// Appends the first bytes of `from`, at least one. The result is their number.
    fn write(&mut self, from: &[u8]) -> Result<usize, Failed>
        requires { 0 < length from.now }

        ensures some { IfOk result (λ count. 0 < count) }
        ensures bound { IfOk result (λ count. count ≤ length from.now) }
        ensures bytes { WriteAppends (held self.old) (held self.new) result from.now }

        ensures counted { whole_writes self.new ≡ counts_whole (length from.now) result (whole_writes self.old) }

        ensures quiet { OnOk result (faults self.new ≡ faults self.old) }
        ensures failed { OnErr result (Rose (faults self.old) (faults self.new)) }
        ensures only_rise { faults self.old ≤ faults self.new }

        ensures beside { Keeps (beside self.old) (beside self.new) }
        ensures same_beside { read_counts_beside self.new ≡ read_counts_beside self.old };
}

/// Files by their names.
pub trait Shelf {
    // what the shelf tells of each name
    ghost tells: { Self → List ℕ → Told };

    // the faults, counted for each name
    ghost faults: { Self → List ℕ → ℕ };

    // how many fetches were made, of any name, if they are counted
    ghost fetches: { Self → Option ℕ };

    /// The bytes under the name. A name that no file has is a fault.
    fn fetch(&mut self, alloc: Global, name: &[u8], limit: usize) -> Result<Vec<u8>, Taken>
        ensures bytes { IfOk result (λ v. MayHold (tells self.old name.now) v.items) }
        ensures within { IfOk result (λ v. vec_len v ≤ limit) }
        ensures long { IsErrOf result Taken.Long → MayExceed (tells self.old name.now) limit }
        ensures kept { (other : List ℕ) → tells self.new other ≡ tells self.old other }
        ensures counted { fetches self.new ≡ option_map one_more (fetches self.old) }

        ensures quiet { ¬ IsErrOf result Taken.Failed → (other : List ℕ) → faults self.new other ≡ faults self.old other }
        ensures failed { IsErrOf result Taken.Failed → Rose (faults self.old name.now) (faults self.new name.now) }
        ensures only_rise { (other : List ℕ) → faults self.old other ≤ faults self.new other };
}
