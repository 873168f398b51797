//! The basis by a tree in lectic order. The intents and the pseudo-intents are visited together. Closures go by the members found so far, each of which waits for
//! one attribute of its premise.
#![tactic(auto)]

mod closing;
mod repetitions;
mod tree;
mod watched_list;

ghost use Rattle.std.specs.Prelude.{◌≡◌, ◌++◌, IfOk, true};
ghost use Rattle.std.specs.List.{list_all};
ghost use Rattle.fca_model.specs.Implications.{holds};
ghost use Rattle.fca_model.specs.Pseudo.{basis_known};

use attr_bits::{Attrs, WordCount};
pub use closing::close;
use derivation::{Rows, RowsOf};
use extent_blocks::IndexedRows;
use fca_model::Memory;
use implication_closure::{ImplicationList, ImplicationListOf};
use repetitions::without_repetitions;
use std::alloc::Global;
use tree::visit_all;
pub use watched_list::WatchedList;

/// The known implications, and behind them the basis relative to them, in lectic order of the premises. It is found in sets as narrow as the table.
pub fn known_with_basis(
    alloc: Global,
    rows: &Rows,
    known: &ImplicationList,
) -> Result<ImplicationList, Memory>
    requires wide { known.now.width ≡ rows.now.width }
    requires holds { list_all (holds rows.now) known.now.members ≡ true }
    ensures { IfOk result (λ list. list ≡ record { width = rows.now.width; members = known.now.members ++ basis_known known.now.members rows.now }) }
{
    match WordCount::of(rows.width()) {
        WordCount::One => known_with_basis_resized(alloc, rows.resize::<1>(alloc)?, known),
        WordCount::Two => known_with_basis_resized(alloc, rows.resize::<2>(alloc)?, known),
        WordCount::Four => known_with_basis_resized(alloc, rows.resize::<4>(alloc)?, known),
        WordCount::Eight => known_with_basis_resized(alloc, rows.resize::<8>(alloc)?, known),
        WordCount::All => known_with_basis_resized(alloc, rows.copy()?, known),
    }
}

/// The known implications and the basis relative to them, found in W words and given in all words.
fn known_with_basis_resized<const W: usize>(
    alloc: Global,
    rows: RowsOf<W>,
    known: &ImplicationList,
) -> Result<ImplicationList, Memory>
    requires wide { known.now.width ≡ rows.width }
    requires holds { list_all (holds rows) known.now.members ≡ true }
    ensures { IfOk result (λ list. list ≡ record { width = rows.entry.width; members = known.now.members ++ basis_known known.now.members rows.entry }) }
{
    let list = known_with_basis_in_words(alloc, rows, known)?;
    let _width = list.width();
    list.resize(alloc)
}

/// The known implications, and behind them the basis relative to them, in lectic order of the premises, in sets of W words. (Ganter, "Two basic algorithms in
/// concept analysis", 1984, for the order; Janostik, Konecny and Krajca, "LinCbO", 2021, for the tree; Moskewicz and others, "Chaff", 2001, for what waits.)
pub fn known_with_basis_in_words<const W: usize>(
    alloc: Global,
    rows: RowsOf<W>,
    known: &ImplicationList,
) -> Result<ImplicationListOf<W>, Memory>
    requires wide { known.now.width ≡ rows.width }
    requires holds { list_all (holds rows) known.now.members ≡ true }
    ensures { IfOk result (λ list. list ≡ record { width = rows.entry.width; members = known.now.members ++ basis_known known.now.members rows.entry }) }
{
    let indexed = IndexedRows::new(alloc, without_repetitions(alloc, rows)?)?;
    let _width = indexed.rows().width();
    let least = known.naive_closure(&Attrs::empty(known.width()));
    let mut found = WatchedList::of(alloc, known, &least)?;
    visit_all(alloc, &indexed, known, &mut found, &least.resize(), 0)?;
    Ok(found.into_list())
}
