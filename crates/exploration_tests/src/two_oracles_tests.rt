//! Two oracles who explore in turn, each at a desk of its own.

ghost use Rattle.std.specs.Prelude.{◌≡◌, ◌≤◌, IfSome};
ghost use Rattle.fca_model.specs.Widths.{IsWide};
ghost use Rattle.oracle_expert.specs.Answers.{HasWideAnswer};

use crate::tables::{bare_table, opened, table_of_one};
use basis_report::conflicts_text;
use expert_gate::{Desk, Solo};
use explore_state::{Explore, Question, Reply};
use fca_model::Memory;
use oracle_expert::{Answer, Expert, Oracle};
use std::alloc::Global;
use std::test::Fail;

/// The question that the expert draws at its desk.
fn draw(explore: &mut Explore, expert: u8) -> Option<Question>
    requires expert { (1 ≤ expert) × (expert ≤ explore.old.opening.experts) }
    ensures opening { explore.new.opening ≡ explore.old.opening }
    ensures wide { IfSome result (IsWide explore.old.opening.table.context.width) }
{
    let mut desk = Solo { explore, expert };
    match desk.draw() {
        Ok(Reply::Ask(question)) => Some(question),
        _ => None,
    }
}

/// The expert gives the answer at its desk.
fn give(explore: &mut Explore, expert: u8, answer: Answer) -> Option<Reply>
    requires expert { (1 ≤ expert) × (expert ≤ explore.old.opening.experts) }
    requires wide { HasWideAnswer explore.old.opening.table.context.width answer }
    ensures opening { explore.new.opening ≡ explore.old.opening }
{
    let mut desk = Solo { explore, expert };
    match answer {
        Answer::Confirm => desk.confirm().ok(),
        Answer::Row { name, row } => desk.row(name, row).ok(),
    }
}

/// The oracle answers the question, and learns the reply.
fn answer(
    alloc: Global,
    explore: &mut Explore,
    expert: u8,
    oracle: &mut Oracle,
    question: &Question,
) -> Option<Reply>
    requires expert { (1 ≤ expert) × (expert ≤ explore.old.opening.experts) }
    requires question { IsWide explore.old.opening.table.context.width question.now }
    requires oracle { oracle.old.table.context.width ≡ explore.old.opening.table.context.width }
    ensures opening { explore.new.opening ≡ explore.old.opening }
    ensures oracle { oracle.new.table.context.width ≡ oracle.old.table.context.width }
{
    let answer = oracle.answer(alloc, question).ok()?;
    let reply = give(explore, expert, answer)?;
    oracle.told(&reply);
    Some(reply)
}

/// Both oracles draw one question. Then the first answers, and the second answers twice. Returns whether the replies are that the
/// question is accepted, that the row breaks it, and that it was accepted before.
fn play(
    alloc: Global,
    explore: &mut Explore,
    first: &mut Oracle,
    second: &mut Oracle,
) -> Option<bool>
    requires experts { explore.old.opening.experts ≡ 2 }
    requires first { first.old.table.context.width ≡ explore.old.opening.table.context.width }
    requires second { second.old.table.context.width ≡ explore.old.opening.table.context.width }
    ensures opening { explore.new.opening ≡ explore.old.opening }
{
    let question = draw(explore, 1)?;
    let same = draw(explore, 2)?;
    let accepts = matches!(
        answer(alloc, explore, 1, first, &question)?,
        Reply::Accepted(0)
    );
    let breaks = matches!(
        answer(alloc, explore, 2, second, &same)?,
        Reply::Breaks(0, _)
    );
    let supersedes = matches!(
        answer(alloc, explore, 2, second, &same)?,
        Reply::SupersededBy(0, _)
    );
    Some(accepts && breaks && supersedes)
}

/// Whether the replies are as they should be, and the text of the conflicts.
fn conflicts(
    alloc: Global,
    mut explore: Explore,
    mut first: Oracle,
    mut second: Oracle,
) -> Option<(bool, Vec<u8>)>
    requires experts { explore.opening.experts ≡ 2 }
    requires width { explore.opening.table.context.width ≡ 2 }
    requires first { first.table.context.width ≡ 2 }
    requires second { second.table.context.width ≡ 2 }
{
    let are_right = play(alloc, &mut explore, &mut first, &mut second)?;
    let text = conflicts_text(alloc, &explore, &[first, second]).ok()?;
    Some((are_right, text))
}

/// What the oracle of the table without objects and that of the table of one object come to.
fn two_desks(alloc: Global) -> Result<Option<(bool, Vec<u8>)>, Memory> {
    let first = Oracle::new(alloc, bare_table(alloc)?)?;
    let second = Oracle::new(alloc, table_of_one(alloc)?)?;
    let explore = opened(alloc, 2)?;
    Ok(conflicts(alloc, explore, first, second))
}

#[test]
fn two_oracles_in_turn(rt: HostRuntime) -> Result<(), Fail> {
    let Some((are_right, text)) = two_desks(rt.alloc())? else {
        panic!(rt; "memory")
    };
    assert!(rt; are_right);
    let expected: &[u8] = b"# conflicts 1\n# 2 1 X. g 1 .. XX {} -> {a, b}\n";
    assert_eq!(rt; text.as_slice(), expected);
    Ok(())
}
