//! The words that the system gives the program.

ghost use Rattle.std.specs.Prelude.{◌≡◌, IfOk, drop, map, string_bytes};
ghost use Rattle.std.specs.Vec.Iter.{into_iter_items};

use fca_model::{Memory, Word};
use std::alloc::Global;
use std::env::Args;

/// The words after the program's name.
pub fn words_of(alloc: Global, mut arguments: Args) -> Result<Vec<Word>, Memory>
    ensures { IfOk result (λ words. words.items ≡ map string_bytes (drop 1 (into_iter_items arguments))) }
{
    let _program = arguments.next();
    let mut words = Vec::new(alloc);
    for argument in arguments {
        words.push(Word::new(alloc, argument.as_bytes())?)?;
    }
    Ok(words)
}
