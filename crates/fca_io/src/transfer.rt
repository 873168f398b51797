//! Whole transfers: all bytes of a source, and a whole text.

ghost use Rattle.std.specs.Prelude.{◌≡◌, ◌≢◌, ◌≤◌, ◌+◌, ℕ, [], vec_len, Result, OnOk, OnErr, IfOk, IfSome, IsErrOf};
ghost use Rattle.std.specs.Option.{option_map};
ghost use Rattle.std.specs.Io.KnownBytes.{Appends, IsAtEnd, Keeps};
ghost use Rattle.fca_io.specs.Faults.{Rose, RoseAtMost, one_more};
ghost use Rattle.fca_io.specs.Transfers.{Takes, AppendsFront};

use crate::outside::{Put, Sink, Source, Taken};
use std::alloc::Global;

/// The number of bytes that one read asks for.
const CHUNK: usize = 4096;

/// All bytes up to the end of the source, which is read at most once more than there are bytes. After an `Err` the bytes that were taken
/// are gone from the source.
pub fn read_all<S: Source>(alloc: Global, source: &mut S, limit: usize) -> Result<Vec<u8>, Taken>
    ensures bytes { IfOk result (λ v. IfSome (S.left source.old) (λ bytes. v.items ≡ bytes)) }
    ensures within { IfOk result (λ v. vec_len v ≤ limit) }
    ensures end { OnOk result (IsAtEnd (S.left source.new)) }
    ensures taken { Takes (S.left source.old) (S.left source.new) limit (IsErrOf result Taken.Long) }

    ensures few { RoseAtMost (S.reads source.old) (S.reads source.new) (limit + 1) }
    ensures no_more { IfOk result (λ v. RoseAtMost (S.reads source.old) (S.reads source.new) (vec_len v + 1)) }

    ensures quiet { ¬ IsErrOf result Taken.Failed → S.faults source.new ≡ S.faults source.old }
    ensures failed { IsErrOf result Taken.Failed → Rose (S.faults source.old) (S.faults source.new) }
    ensures only_rise { S.faults source.old ≤ S.faults source.new }

    ensures beside { Keeps (S.beside source.old) (S.beside source.new) }
    ensures same_beside { S.faults_beside source.new ≡ S.faults_beside source.old }
{
    let mut bytes = Vec::new(alloc);
    let mut chunk = [0u8; CHUNK];
    loop {
        let count = source.read(&mut chunk)?;
        if count == 0 {
            return Ok(bytes);
        }
        if count > limit - bytes.len() {
            return Err(Taken::Long);
        }
        bytes.extend_from_slice(&chunk[..count])?;
    }
}

/// Appends the whole text to the sink. Each write is handed all that is left of the text, so only the last is taken whole. After an
/// `Err` the sink holds a front of the text.
pub fn write_text<K: Sink>(sink: &mut K, text: &[u8]) -> Result<(), Put>
    ensures whole { OnOk result (Appends (K.held sink.old) (K.held sink.new) text.now) }
    ensures front { AppendsFront (K.held sink.old) (K.held sink.new) text.now }
    ensures none { text.now ≡ [] → sink.new ≡ sink.old }

    ensures at_once { OnOk result (text.now ≢ [] → K.whole_writes sink.new ≡ option_map one_more (K.whole_writes sink.old)) }
    ensures in_part { OnErr result (K.whole_writes sink.new ≡ K.whole_writes sink.old) }

    ensures quiet { OnOk result (K.faults sink.new ≡ K.faults sink.old) }
    ensures failed { OnErr result (Rose (K.faults sink.old) (K.faults sink.new)) }
    ensures only_rise { K.faults sink.old ≤ K.faults sink.new }

    ensures beside { Keeps (K.beside sink.old) (K.beside sink.new) }
    ensures same_beside { K.read_counts_beside sink.new ≡ K.read_counts_beside sink.old }
{
    let mut rest = text;
    while !rest.is_empty() {
        let count = sink.write(rest)?;
        rest = &rest[count..];
    }
    Ok(())
}
