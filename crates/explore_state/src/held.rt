//! Questions that experts hold.

ghost use Rattle.std.specs.Prelude.{◌≡◌, vec_capacity};
ghost use Rattle.fca_model.specs.Exploration.{held_by, given_back, holders_of};
ghost use Rattle.explore_state.specs.Fewest.{is_other};

use crate::{Hold, Question};
use attr_bits::Attrs;

/// The question that the expert holds, if any.
pub(crate) fn question_of(held: &[Hold], expert: u8) -> Option<Question>
    ensures { result ≡ held_by expert held.now }
{
    held.iter()
        .find(|hold| hold.expert == expert)
        .map(|hold| hold.question)
}

/// The expert gives its hold back, if it has one.
pub(crate) fn give_back(held: &mut Vec<Hold>, expert: u8)
    ensures held { held.new.items ≡ given_back expert held.old.items }
    ensures room { vec_capacity held.new ≡ vec_capacity held.old }
{
    held.retain(|hold| hold.expert != expert);
}

/// How many other experts hold a question with the premise.
pub(crate) fn other_holders(held: &[Hold], expert: u8, premise: &Attrs) -> usize
    ensures { result ≡ holders_of premise.now (given_back expert held.now) }
{
    let mut count = 0;
    for hold in held {
        if is_other(hold, expert, premise) {
            count += 1;
        }
    }
    count
}

/// Whether the hold is another expert's, of a question with the premise.
fn is_other(hold: &Hold, expert: u8, premise: &Attrs) -> bool
    ensures { result ≡ is_other expert premise.now hold.now }
{
    hold.expert != expert && hold.question.premise == *premise
}
