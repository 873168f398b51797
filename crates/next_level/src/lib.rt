//! The next level of the basis that has a member. A walk lists open sets, also of larger sizes, up to a number that the rules allow. If it has listed all, later
//! levels are found among them.
#![tactic(auto)]

mod ahead;
mod branches;
mod open_sets;
mod parts;
mod search;
mod shortlist;
mod walk;

ghost use Rattle.std.specs.Prelude.{◌≡◌, ◌≤◌, ◌+◌, ◌*◌, ◌++◌, ◌==◌, ℕ, true, List, [], IfOk, filter};
ghost use Rattle.fca_model.specs.Implications.{Rule};
ghost use Rattle.fca_model.specs.Levels.{HasBelow};
ghost use Rattle.implication_closure.specs.Closing.{HaveWidth};
ghost use Rattle.next_level.specs.NextLevel.{IsNextLevel, open_where, everything};
ghost use Rattle.next_level.specs.Among.{IsRest};
ghost use Rattle.next_level.specs.LevelWalks.{IsLeastSize};
ghost use Rattle.next_level.specs.Openings.{CanOpen, IsOpened};
ghost use Rattle.fca_model.specs.Sets.{size};

pub use ahead::Ahead;
use ahead::ahead_of;
use attr_bits::{Attrs, WORDS, WordCount};
use branches::{LevelWalk, Limits, Walker};
use derivation::Rows;
use fca_model::{Implication, Memory};
use implication_closure::{ImplicationList, ImplicationListOf, resize_implications};
use open_sets::{OpenSets, least_size, of_size};
pub use search::{LevelSearch, MOST_PARTS, OneThread, SideBySide};
use std::alloc::Global;

/// How many sets a walk visits for each rule before it keeps only the least open ones.
const VISITS: usize = 16;

/// How many candidates for later levels are kept for each rule, at most.
const KEPT: usize = 4;

/// A level of the basis: the size of its premises, and its members in lectic order.
#[derive(Drop)]
pub struct Level {
    pub size: u32,
    pub members: Vec<Implication<Attrs>>,
}

/// A level, and candidates for later ones.
#[derive(Drop)]
pub struct FoundLevel {
    pub level: Level,
    pub ahead: Ahead,
}

/// The next level that has a member. If none has, its size is past the width. The rules are the known implications and, behind them, the members of the basis
/// below a size. (Kuznetsov, "A fast algorithm for computing all intersections of objects in a finite semi-lattice", 1993, for the tree.)
pub fn next_level(alloc: Global, rows: &Rows, rules: &ImplicationList) -> Result<Level, Memory>
    requires wide { rules.now.width ≡ rows.now.width }
    ensures { (known found : List Rule) (reached : ℕ) → rules.now.members ≡ known ++ found → HasBelow known rows.now reached found → reached ≤ rows.now.width + 1
        → IfOk result (λ level. IsNextLevel known rows.now found level.size level.members.items) }
{
    let nothing = Ahead::none(alloc, rows.width())?;
    let opened = OneThread.find_next(alloc, rows, rules, &nothing)?;
    Ok(opened.level)
}

/// The next level by a walker, in sets as narrow as the table.
fn find_next_by<X: Walker<1> + Walker<2> + Walker<4> + Walker<8> + Walker<WORDS>>(
    walker: &X,
    alloc: Global,
    rows: &Rows,
    rules: &ImplicationList,
    ahead: &Ahead,
) -> Result<FoundLevel, Memory>
    requires { CanOpen rows.now rules.now ahead.now }
    ensures { IfOk result (λ opened. IsOpened rows.now rules.now opened.level.size opened.level.members.items opened.ahead) }
{
    match WordCount::of(rows.width()) {
        WordCount::One => find_next_in_words::<X, 1>(walker, alloc, rows, rules, ahead),
        WordCount::Two => find_next_in_words::<X, 2>(walker, alloc, rows, rules, ahead),
        WordCount::Four => find_next_in_words::<X, 4>(walker, alloc, rows, rules, ahead),
        WordCount::Eight => find_next_in_words::<X, 8>(walker, alloc, rows, rules, ahead),
        WordCount::All => find_next_in_words::<X, WORDS>(walker, alloc, rows, rules, ahead),
    }
}

/// The next level by a walker, in sets of W words.
fn find_next_in_words<X: Walker<W>, const W: usize>(
    walker: &X,
    alloc: Global,
    rows: &Rows,
    rules: &ImplicationList,
    ahead: &Ahead,
) -> Result<FoundLevel, Memory>
    requires words { W ≤ 1024 }
    requires fits { rows.now.width ≤ 64 * W }
    requires opening { CanOpen rows.now rules.now ahead.now }
    ensures { IfOk result (λ opened. IsOpened rows.now rules.now opened.level.size opened.level.members.items opened.ahead) }
{
    let walk = LevelWalk::<W>::new(alloc, rows, rules, ahead)?;
    let seen = find_open_sets(walker, alloc, &walk)?;
    let most = rules.as_slice().len().saturating_mul(KEPT);
    let opened = least_of(alloc, rows.width(), &seen, most)?;
    Ok(opened)
}

/// Parts the open sets: those of the least size are the level, and the larger ones are candidates for later levels.
fn least_of<const W: usize>(
    alloc: Global,
    width: u32,
    seen: &OpenSets<W>,
    most: usize,
) -> Result<FoundLevel, Memory>
    requires words { W ≤ 1024 }
    requires narrow { width ≤ 1024 }
    requires even { HaveWidth width seen.now.members.items }
    ensures size { IfOk result (λ opened. IsLeastSize (width + 1) seen.now.members.items opened.level.size) }
    ensures members { IfOk result (λ opened. opened.level.members.items ≡ filter (λ i. size i.premise == opened.level.size) seen.now.members.items) }
    ensures ahead { IfOk result (λ opened. opened.ahead.whole ≡ true → IsRest width seen.now.bound seen.now.members.items opened.level.size opened.ahead.sets.rows) }
    ensures ahead_wide { IfOk result (λ opened. opened.ahead.sets.width ≡ width) }
{
    let size = least_size(&seen.members, width + 1);
    let level = of_size(alloc, &seen.members, size)?;
    let members = resize_implications(alloc, width, &level)?;
    let ahead = ahead_of(alloc, width, seen, size, most)?;
    Ok(FoundLevel {
        level: Level { size, members },
        ahead,
    })
}

/// The open sets up to a bound, at least those of the least size. The first sizes are looked at in turn, so that the walk meets no larger set than it must. If
/// memory runs out for larger sets, only the least are kept.
fn find_open_sets<X: Walker<W>, const W: usize>(
    walker: &X,
    alloc: Global,
    walk: &LevelWalk<W>,
) -> Result<OpenSets<W>, Memory>
    ensures listed { IfOk result (λ sets. sets.members.items ≡ open_where walk.now.list.members walk.now.indexed sets.bound everything) }
    ensures all { IfOk result (λ sets. sets.members.items ≡ [] → walk.now.indexed.width ≤ sets.bound) }
{
    let _width = walk.list.width();
    for bound in 0..sizes_in_turn(&walk.list) {
        let seen = open_sets_up_to(walker, alloc, walk, Limits { bound, visits: 0 })?;
        if !seen.members.is_empty() {
            return Ok(seen);
        }
    }
    let bound = walk.indexed.rows().width();
    let visits = walk.list.as_slice().len().saturating_mul(VISITS);
    match open_sets_up_to(walker, alloc, walk, Limits { bound, visits }) {
        Ok(seen) => Ok(seen),
        Err(_) => open_sets_up_to(walker, alloc, walk, Limits { bound, visits: 0 }),
    }
}

/// How many sizes are looked at in turn, the least first. Without rules the walk meets all sets, and up to a third of the attributes each size has at least twice
/// as many as the one before. So all walks together meet at most twice what the last one does.
fn sizes_in_turn<const W: usize>(rules: &ImplicationListOf<W>) -> u32 {
    let _width = rules.width();
    if rules.as_slice().is_empty() {
        rules.width() / 3
    } else {
        0
    }
}

/// The open sets up to the bound of the limits, which is raised to the size of the least set.
fn open_sets_up_to<X: Walker<W>, const W: usize>(
    walker: &X,
    alloc: Global,
    walk: &LevelWalk<W>,
    limits: Limits,
) -> Result<OpenSets<W>, Memory>
    ensures listed { IfOk result (λ sets. sets.members.items ≡ open_where walk.now.list.members walk.now.indexed sets.bound everything) }
    ensures kept { IfOk result (λ sets. sets.members.items ≡ [] → limits.bound ≤ sets.bound) }
{
    let bound = limits.bound.max(walk.least.size());
    walker.walk(
        alloc,
        walk,
        Limits {
            bound,
            visits: limits.visits,
        },
    )
}
