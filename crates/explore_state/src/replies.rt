//! The reply to each event, which changes nothing.

ghost use Rattle.std.specs.Prelude.{◌≡◌, ◌<◌, true, Some, length};
ghost use Rattle.fca_model.specs.declared.Reply.TheVariants.{Accepted};
ghost use Rattle.fca_model.specs.Exploration.{State, rules_of, given_back, draw_reply, confirm_reply, row_reply};
ghost use Rattle.explore_state.specs.Fewest.{IsFewest};

use crate::held::other_holders;
use crate::{Hold, Implication, Question, Reply};
use answer_check::{Verdict, check_confirm, check_row};
use attr_bits::Attrs;
use derivation::Rows;
use implication_closure::ImplicationList;
use level_queue::LevelQueue;

/// The reply to a draw of the expert. At most `most` experts may hold one question.
pub(crate) fn reply_to_draw(questions: &[Question], held: &[Hold], expert: u8, most: usize) -> Reply
    ensures { result ≡ draw_reply most (given_back expert held.now) questions.now }
{
    if questions.is_empty() {
        return Reply::Done;
    }
    let question = &questions[place_of_fewest(questions, held, expert)];
    if other_holders(held, expert, &question.premise) >= most {
        return Reply::AllHeld;
    }
    Reply::Ask(*question)
}

/// The place of the first question whose premise the fewest other experts hold. The search stops at a question that nobody
/// holds.
fn place_of_fewest(questions: &[Question], held: &[Hold], expert: u8) -> usize
    requires { 0 < length questions.now }
    ensures { IsFewest (given_back expert held.now) questions.now (length questions.now) result }
{
    let mut best = 0;
    let mut fewest = other_holders(held, expert, &questions[0].premise);
    for place in 1..questions.len() {
        if fewest == 0 {
            return best;
        }
        let count = other_holders(held, expert, &questions[place].premise);
        if count < fewest {
            best = place;
            fewest = count;
        }
    }
    best
}

/// The reply to a confirmation of the question. An open question is accepted at once. Only for another is it looked up what
/// speaks against it.
pub(crate) fn reply_to_confirmation(
    queue: &LevelQueue,
    known: &[Implication],
    question: &Question,
) -> Reply
    requires { known.now ≡ queue.now.known }
    ensures { (s : State) → s.context ≡ queue.now.context → s.accepted ≡ queue.now.accepted
        → s.settings.known ≡ known.now → result ≡ confirm_reply s (Some question.now) }
{
    if is_open(queue, question) {
        return Reply::Accepted(queue.rules().as_slice().len());
    }
    reply_to_late_confirmation(queue.rows(), known, queue.accepted(), question)
}

/// Whether the queue lists the question as open. If it does not, the question may be open all the same.
fn is_open(queue: &LevelQueue, question: &Question) -> bool
    ensures { result ≡ true → (s : State) → s.context ≡ queue.now.context → s.accepted ≡ queue.now.accepted
        → s.settings.known ≡ queue.now.known → confirm_reply s (Some question.now) ≡ Accepted (length (rules_of s)) }
{
    queue.place_of(question).is_some()
}

/// The reply to a confirmation of a question that may have been settled meanwhile.
fn reply_to_late_confirmation(
    rows: &Rows,
    known: &[Implication],
    accepted: &ImplicationList,
    question: &Question,
) -> Reply
    ensures { (s : State) → s.context ≡ rows.now → s.accepted ≡ accepted.now.members
        → s.settings.known ≡ known.now → result ≡ confirm_reply s (Some question.now) }
{
    let accepted_members = accepted.as_slice();
    match check_confirm(rows, accepted, question) {
        Verdict::Take => Reply::Accepted(known.len() + accepted_members.len()),
        Verdict::Refuted(place) => Reply::Refuted(place, rows.get(place)),
        Verdict::SupersededBy(place) => {
            Reply::SupersededBy(known.len() + place, accepted_members[place])
        }
        _ => unreachable!(),
    }
}

/// The reply to a row for the question.
pub(crate) fn reply_to_row(
    rows: &Rows,
    rules: &ImplicationList,
    question: &Question,
    row: &Attrs,
) -> Reply
    ensures { (s : State) → s.context ≡ rows.now → rules_of s ≡ rules.now.members
        → result ≡ row_reply s (Some question.now) row.now }
{
    match check_row(rows, rules, question, row) {
        Verdict::Take => Reply::Taken(rows.len()),
        Verdict::Misses(attribute) => Reply::Misses(attribute),
        Verdict::Keeps => Reply::Keeps,
        Verdict::Breaks(place) => Reply::Breaks(place, rules.as_slice()[place]),
        Verdict::SupersededRow(place) => Reply::SupersededRow(place, rows.get(place)),
        _ => unreachable!(),
    }
}
