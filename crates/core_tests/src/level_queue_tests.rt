//! The open questions of a table over two attributes that has no object: the first, those once an object without attributes was
//! recorded, and what is accepted.

use attr_bits::Attrs;
use derivation::Rows;
use fca_model::{Implication, Memory};
use level_queue::LevelQueue;
use std::alloc::Global;
use std::rt::HostRuntime;

/// The implication to all attributes.
fn to_all(premise: Attrs) -> Implication<Attrs> {
    Implication {
        premise,
        conclusion: Attrs::full(2),
    }
}

#[test]
fn nothing_is_asked_about_first(rt: HostRuntime) -> Result<(), Memory> {
    let queue = LevelQueue::open(rt.alloc(), &Rows::new(rt.alloc(), 2)?)?;
    assert!(&rt; queue.open_questions() == [to_all(Attrs::empty(2))].as_slice());
    Ok(())
}

#[test]
fn a_row_opens_the_next_level(rt: HostRuntime) -> Result<(), Memory> {
    let mut queue = LevelQueue::open(rt.alloc(), &Rows::new(rt.alloc(), 2)?)?;
    let none = Attrs::empty(2);
    queue.take_row(none)?;
    assert!(&rt; queue.open_questions() == [to_all(none.with(1)), to_all(none.with(0))].as_slice());
    Ok(())
}

#[test]
fn a_question_is_accepted(rt: HostRuntime) -> Result<(), Memory> {
    let mut queue = LevelQueue::open(rt.alloc(), &Rows::new(rt.alloc(), 2)?)?;
    assert!(&rt; !queue.open_questions().is_empty());
    queue.accept(0)?;
    assert!(&rt; queue.accepted().as_slice() == [to_all(Attrs::empty(2))].as_slice());
    Ok(())
}
