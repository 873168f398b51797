//! Reads known files.

ghost use Rattle.std.specs.Prelude.{◌≡◌, ◌≤◌, ◌⊎◌, Ok, Err, IfOk, IfErr, length};
ghost use Rattle.fca_model.specs.declared.TheConstants.{MAX_ATTRIBUTES};
ghost use Rattle.expert_scripts.specs.Known.{known_form, known_rule};

use crate::known_fault::KnownFault;
use expert_wire::{is_skipped, pattern_marks};
use implication_closure::{Implication, ImplicationList};
use std::alloc::Global;
use text_pieces::bytes::{split_line, split_word};
use text_pieces::set_of_marks;

/// The implications of a known file in order. Their sets have width n.
pub fn read_known(alloc: Global, bytes: &[u8], n: u32) -> Result<ImplicationList, KnownFault>
    requires { n ≤ MAX_ATTRIBUTES }
    ensures ok { IfOk result (λ list. known_form bytes.now n ≡ Ok list.members) }
    ensures width { IfOk result (λ list. list.width ≡ n) }
    ensures refused { IfErr result (λ e. (e ≡ KnownFault.Memory) ⊎ (known_form bytes.now n ≡ Err e)) }
{
    let mut list = ImplicationList::new(alloc, n)?;
    let mut rest = bytes;
    let mut number = 0;
    while !rest.is_empty() {
        let (line, behind) = split_line(rest);
        rest = behind;
        number += 1;
        if is_skipped(line) {
            continue;
        }
        list.push(read_rule(line, n, number)?)?;
    }
    Ok(list)
}

/// The implication of a line that is not skipped. Its sets have width n, and `number` is the number of the line.
pub(crate) fn read_rule(line: &[u8], n: u32, number: usize) -> Result<Implication, KnownFault>
    requires { n ≤ MAX_ATTRIBUTES }
    ensures ok { IfOk result (λ i. known_rule n number line.now ≡ Ok i) }
    ensures refused { IfErr result (λ e. known_rule n number line.now ≡ Err e) }
    ensures premise { IfOk result (λ i. length i.premise ≡ n) }
    ensures conclusion { IfOk result (λ i. length i.conclusion ≡ n) }
{
    let (first, later) = split_word(line);
    let (second, _) = split_word(later);
    let (Some(premise), Some(conclusion)) = (pattern_marks(first), pattern_marks(second)) else {
        return Err(KnownFault::BadLine(number));
    };
    if premise.len() != n as usize || conclusion.len() != n as usize {
        return Err(KnownFault::BadWidth(number));
    }
    Ok(Implication {
        premise: set_of_marks(premise),
        conclusion: set_of_marks(conclusion),
    })
}
