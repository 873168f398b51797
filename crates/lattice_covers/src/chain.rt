//! The chain of intents of which each contains the one before. An intent has a link with the rows that contain it and with witnesses, members of the closures
//! above it.

ghost use Rattle.std.specs.Prelude.{◌≡◌, ◌<◌, ◌≤◌, ℕ, [], true, false, not, ◌||◌, length, slice_set, slice_index_or, MatchOption, IfOk};
ghost use Rattle.fca_model.specs.Sets.{Set, within};
ghost use Rattle.fca_model.specs.Context.{Context, closure};
ghost use Rattle.lectic_concepts.specs.Branches.{AreWitnesses};
ghost use Rattle.extent_places.specs.Objects.{rows_above};
ghost use Rattle.lattice_covers.specs.Neighbours.{AreRowsAbove, IsLink, AreLinks};

use attr_bits::Bits;
use derivation::RowsOf;
use extent_places::{
    FEW_OBJECTS, ObjectSet, closure_of, columns_of, has, have_all, lacks, objects_above,
    objects_with, with,
};
use fca_model::Memory;
use lectic_concepts::own_witnesses;
use std::alloc::Global;
use std::rc::Rc;

/// Where few rows are left, witnesses are passed on only in tables of at least so many attributes. In narrower tables the copies take longer than the closures
/// that they spare.
const MANY_ATTRIBUTES: u32 = 20;

/// Few rows, with the objects of each attribute.
#[derive(Drop)]
pub(crate) struct FewRows<const W: usize> {
    pub(crate) rows: RowsOf<W>,
    pub(crate) columns: Vec<ObjectSet>,
}

/// The rows that contain an intent, set apart. Few rows are kept with their columns, larger intents share them, and each has a set of their objects.
#[derive(Drop)]
pub(crate) enum RowsAbove<const W: usize> {
    /// More rows than one word holds.
    Many(RowsOf<W>),
    /// Few rows that contain the intent or a smaller one, and those of them that contain the intent.
    Few(Rc<FewRows<W>>, ObjectSet),
}

/// What is known of an intent while its next larger intents and those of larger ones are looked for.
#[derive(Drop)]
pub(crate) struct Link<const W: usize> {
    /// The intent.
    pub(crate) intent: Bits<W>,
    /// The rows that contain it.
    pub(crate) above: RowsAbove<W>,
    /// For each attribute, as far as the list goes, a witness: a member of the closure of the intent with it.
    pub(crate) witnesses: Vec<u32>,
    /// An attribute that was not allowed in the closure that failed last.
    pub(crate) last_disallowed: u32,
}

/// The link of a. Links whose intents a does not contain are dropped from the end of the chain. The rows that contain a are found among those of the last link
/// that is left, and its witnesses are witnesses for a too.
pub(crate) fn link_of<const W: usize>(
    alloc: Global,
    rows: &RowsOf<W>,
    chain: &mut Vec<Link<W>>,
    a: &Bits<W>,
) -> Result<Link<W>, Memory>
    requires wide { length a.now ≡ rows.now.width }
    requires links { AreLinks rows.now chain.old.items }
    ensures link { IfOk result (λ link. (link.intent ≡ a.now) × IsLink rows.now link) }
    ensures links { AreLinks rows.now chain.new.items }
{
    while let Some(link) = chain.last() {
        if link.intent.within(a) {
            return next_link(alloc, rows, link, a);
        }
        chain.pop();
    }
    first_link(alloc, rows, a)
}

/// The link of a, which contains the intent of the given link.
fn next_link<const W: usize>(
    alloc: Global,
    rows: &RowsOf<W>,
    link: &Link<W>,
    a: &Bits<W>,
) -> Result<Link<W>, Memory>
    requires wide { length a.now ≡ rows.now.width }
    requires link { IsLink rows.now link.now }
    requires larger { within link.now.intent a.now ≡ true }
    ensures { IfOk result (λ next. (next.intent ≡ a.now) × IsLink rows.now next) }
{
    let above = rows_among(alloc, rows, link, a)?;
    let witnesses = next_witnesses(alloc, rows, link, a, &above)?;
    Ok(Link {
        intent: *a,
        above,
        witnesses,
        last_disallowed: rows.width(),
    })
}

/// The witnesses for a, which contains the intent of the link: those of the link, or none where `above` has few rows and the table few attributes.
fn next_witnesses<const W: usize>(
    alloc: Global,
    rows: &RowsOf<W>,
    link: &Link<W>,
    a: &Bits<W>,
    above: &RowsAbove<W>,
) -> Result<Vec<u32>, Memory>
    requires wide { length a.now ≡ rows.now.width }
    requires link { IsLink rows.now link.now }
    requires larger { within link.now.intent a.now ≡ true }
    ensures { IfOk result (λ witnesses. AreWitnesses rows.now a.now witnesses.items) }
{
    match above {
        RowsAbove::Few(_, _) if rows.width() < MANY_ATTRIBUTES => Ok(Vec::new(alloc)),
        _ => Ok(Vec::from_slice(alloc, &link.witnesses)?),
    }
}

/// The link of a, made from all rows.
fn first_link<const W: usize>(
    alloc: Global,
    rows: &RowsOf<W>,
    a: &Bits<W>,
) -> Result<Link<W>, Memory>
    requires { length a.now ≡ rows.now.width }
    ensures { IfOk result (λ link. (link.intent ≡ a.now) × IsLink rows.now link) }
{
    Ok(Link {
        intent: *a,
        above: rows_among_all(alloc, rows, a)?,
        witnesses: own_witnesses(alloc, rows, a)?,
        last_disallowed: rows.width(),
    })
}

/// The rows that contain a, found among those that contain the intent of the link.
fn rows_among<const W: usize>(
    alloc: Global,
    rows: &RowsOf<W>,
    link: &Link<W>,
    a: &Bits<W>,
) -> Result<RowsAbove<W>, Memory>
    requires wide { length a.now ≡ rows.now.width }
    requires link { IsLink rows.now link.now }
    requires larger { within link.now.intent a.now ≡ true }
    ensures { IfOk result (λ above. AreRowsAbove rows.now a.now above) }
{
    let _width = rows.width();
    match &link.above {
        RowsAbove::Many(above) => keep_rows(
            alloc,
            rows,
            larger_rows(alloc, above, &link.intent, a)?,
            a,
        ),
        RowsAbove::Few(kept, objects) => {
            let fewer = objects_above(&kept.rows, &kept.columns, &link.intent, objects, a);
            Ok(RowsAbove::Few(kept.clone()?, fewer))
        }
    }
}

/// The rows that contain a. Each is asked first for an attribute that the smaller set lacks.
fn larger_rows<const W: usize>(
    alloc: Global,
    rows: &RowsOf<W>,
    smaller: &Bits<W>,
    a: &Bits<W>,
) -> Result<RowsOf<W>, Memory>
    requires { length a.now ≡ rows.now.width }
    ensures { IfOk result (λ above. above ≡ rows_above rows.now a.now) }
{
    let _width = rows.width();
    match a.first_missing(smaller) {
        None => rows.supersets(alloc, a),
        Some(new) => larger_rows_with(alloc, rows, new, a),
    }
}

/// The rows that contain a. Each is asked first for attribute i, a member of a.
fn larger_rows_with<const W: usize>(
    alloc: Global,
    rows: &RowsOf<W>,
    i: u32,
    a: &Bits<W>,
) -> Result<RowsOf<W>, Memory>
    requires inside { i < rows.now.width }
    requires member { slice_index_or a.now i false ≡ true }
    ensures { IfOk result (λ above. above ≡ rows_above rows.now a.now) }
{
    let mut above = RowsOf::new(alloc, rows.width())?;
    for row in rows.as_slice() {
        if contains(row, i, a) {
            above.push(*row)?;
        }
    }
    Ok(above)
}

/// Whether the row contains a. It is asked first for attribute i, a member of a.
fn contains<const W: usize>(row: &Bits<W>, i: u32, a: &Bits<W>) -> bool
    requires inside { i < length row.now }
    requires member { slice_index_or a.now i false ≡ true }
    ensures { result ≡ within a.now row.now }
{
    has(row, i) && a.within(row)
}

/// The rows that contain a, found among all rows.
fn rows_among_all<const W: usize>(
    alloc: Global,
    rows: &RowsOf<W>,
    a: &Bits<W>,
) -> Result<RowsAbove<W>, Memory>
    ensures { IfOk result (λ above. AreRowsAbove rows.now a.now above) }
{
    let _width = rows.width();
    keep_rows(alloc, rows, rows.supersets(alloc, a)?, a)
}

/// Keeps the rows that contain a, with their columns if they are few.
fn keep_rows<const W: usize>(
    alloc: Global,
    rows: &RowsOf<W>,
    above: RowsOf<W>,
    a: &Bits<W>,
) -> Result<RowsAbove<W>, Memory>
    requires { above ≡ rows_above rows.now a.now }
    ensures { IfOk result (λ above. AreRowsAbove rows.now a.now above) }
{
    let _width = rows.width();
    let count = above.len();
    if FEW_OBJECTS < count {
        return Ok(RowsAbove::Many(above));
    }
    let objects = Bits::full(count as u32);
    let columns = columns_of(alloc, &above)?;
    let kept = Rc::new(
        alloc,
        FewRows {
            rows: above,
            columns,
        },
    )?;
    Ok(RowsAbove::Few(kept, objects))
}

/// The closure of the intent of the link with attribute i.
fn closure_with<const W: usize>(rows: &RowsOf<W>, link: &Link<W>, i: u32) -> Bits<W>
    requires wide { length link.now.intent ≡ rows.now.width }
    requires link { IsLink rows.now link.now }
    requires inside { i < rows.now.width }
    ensures { result ≡ closure rows.now (slice_set link.now.intent i true) }
{
    let _width = rows.width();
    let larger = with(&link.intent, i);
    match &link.above {
        RowsAbove::Many(above) => closure_in(above, i, &larger),
        RowsAbove::Few(shared, objects) => {
            let kept = shared.as_ref();
            let having = objects_with(&kept.rows, &kept.columns, &link.intent, objects, i);
            closure_of(&kept.rows, &kept.columns, &having, &larger)
        }
    }
}

/// The closure of a. A row contains a exactly if it has attribute i; in sets of one word it is as fast to ask for all of a.
fn closure_in<const W: usize>(rows: &RowsOf<W>, i: u32, a: &Bits<W>) -> Bits<W>
    requires inside { i < rows.now.width }
    requires having { (g : ℕ) → g < length rows.now.rows
        → within a.now (slice_index_or rows.now.rows g []) ≡ slice_index_or (slice_index_or rows.now.rows g []) i false }
    ensures { result ≡ closure rows.now a.now }
{
    if W <= 1 {
        return rows.closure(a);
    }
    meet_having(rows, i, a)
}

/// The closure of a, as the meet of the rows that have attribute i. They are the rows that contain a.
fn meet_having<const W: usize>(rows: &RowsOf<W>, i: u32, a: &Bits<W>) -> Bits<W>
    requires inside { i < rows.now.width }
    requires having { (g : ℕ) → g < length rows.now.rows
        → within a.now (slice_index_or rows.now.rows g []) ≡ slice_index_or (slice_index_or rows.now.rows g []) i false }
    ensures { result ≡ closure rows.now a.now }
{
    let _width = a.width();
    let mut met = Bits::full(rows.width());
    for row in rows.as_slice() {
        if has(row, i) {
            met = met.meet(row);
        }
    }
    met
}

/// Whether the closure of the intent of the link with attribute i has attribute j.
fn implies<const W: usize>(rows: &RowsOf<W>, link: &Link<W>, i: u32, j: u32) -> bool
    requires wide { length link.now.intent ≡ rows.now.width }
    requires link { IsLink rows.now link.now }
    requires premise { i < rows.now.width }
    requires conclusion { j < rows.now.width }
    ensures { result ≡ true → slice_index_or (closure rows.now (slice_set link.now.intent i true)) j false ≡ true }
{
    let _width = rows.width();
    match &link.above {
        RowsAbove::Many(above) => all_imply(above, i, j),
        RowsAbove::Few(shared, objects) => {
            let kept = shared.as_ref();
            let having = objects_with(&kept.rows, &kept.columns, &link.intent, objects, i);
            have_all(&having, &kept.columns[j as usize])
        }
    }
}

/// Whether each row that has attribute i has attribute j too.
fn all_imply<const W: usize>(rows: &RowsOf<W>, i: u32, j: u32) -> bool
    requires premise { i < rows.now.width }
    requires conclusion { j < rows.now.width }
    ensures { result ≡ true → (g : ℕ) → g < length rows.now.rows
        → slice_index_or (slice_index_or rows.now.rows g []) i false ≡ true → slice_index_or (slice_index_or rows.now.rows g []) j false ≡ true }
{
    let _width = rows.width();
    for row in rows.as_slice() {
        if !has_if(row, i, j) {
            return false;
        }
    }
    true
}

/// Whether the row has attribute j if it has attribute i.
fn has_if<const W: usize>(row: &Bits<W>, i: u32, j: u32) -> bool
    requires premise { i < length row.now }
    requires conclusion { j < length row.now }
    ensures { result ≡ (not (slice_index_or row.now i false) || slice_index_or row.now j false) }
{
    !has(row, i) || has(row, j)
}

/// The closure of the intent with attribute i, if all its members are allowed. It is not computed if its witness is not allowed, or if the attribute that was
/// not allowed in the last closure is a member of this one too.
pub(crate) fn allowed_closure<const W: usize>(
    rows: &RowsOf<W>,
    link: &mut Link<W>,
    i: u32,
    allowed: &Bits<W>,
) -> Option<Bits<W>>
    requires wide { length link.old.intent ≡ rows.now.width }
    requires allowed { length allowed.now ≡ rows.now.width }
    requires link { IsLink rows.now link.old }
    requires inside { i < rows.now.width }
    ensures closed { MatchOption result (within (closure rows.now (slice_set link.old.intent i true)) allowed.now ≡ false)
        (λ closed. (closed ≡ closure rows.now (slice_set link.old.intent i true)) × (within closed allowed.now ≡ true)) }
    ensures link { IsLink rows.now link.new }
    ensures intent { link.new.intent ≡ link.old.intent }
{
    if has_witness(rows, link, i, allowed) {
        return None;
    }
    let last_disallowed = link.last_disallowed;
    if lacks(allowed, last_disallowed) && implies(rows, link, i, last_disallowed) {
        note(&mut link.witnesses, i, last_disallowed);
        return None;
    }
    let closed = closure_with(rows, link, i);
    match closed.first_missing(allowed) {
        None => Some(closed),
        Some(known) => {
            note_missing(&mut link.witnesses, i, &closed, allowed, known);
            link.last_disallowed = later_missing(&closed, allowed, known, i);
            None
        }
    }
}

/// Whether the witness for attribute i shows that the closure of the intent with i has a member that is not allowed. If no witness is known, it does not.
fn has_witness<const W: usize>(rows: &RowsOf<W>, link: &Link<W>, i: u32, allowed: &Bits<W>) -> bool
    requires allowed { length allowed.now ≡ rows.now.width }
    requires link { IsLink rows.now link.now }
    ensures { result ≡ true → within (closure rows.now (slice_set link.now.intent i true)) allowed.now ≡ false }
{
    match link.witnesses.get(i as usize) {
        None => false,
        Some(member) => !has(allowed, *member),
    }
}

/// Notes a witness for attribute i in the place of the one before, if the list has room for it.
fn note(witnesses: &mut Vec<u32>, i: u32, member: u32)
    ensures { witnesses.new.items ≡ slice_set witnesses.old.items i member }
{
    if let Some(kept) = witnesses.get_mut(i as usize) {
        *kept = member;
    }
}

/// Notes the last member of the closure that is not allowed as a witness for attribute i, if the list has room for it.
fn note_missing<const W: usize>(
    witnesses: &mut Vec<u32>,
    i: u32,
    closed: &Bits<W>,
    allowed: &Bits<W>,
    known: u32,
)
    requires { slice_index_or closed.now known false ≡ true }
    ensures { (K : Context) (A : Set) → closed.now ≡ closure K (slice_set A i true)
        → AreWitnesses K A witnesses.old.items → AreWitnesses K A witnesses.new.items }
{
    if (i as usize) < witnesses.len() {
        note(witnesses, i, last_missing(closed, allowed, known, i));
    }
}

/// The last member of the closure before attribute i that is not allowed, or the known member if there is none. In scales, where an attribute implies those
/// before it, no other member stays outside the intents above for so long.
fn last_missing<const W: usize>(closed: &Bits<W>, allowed: &Bits<W>, known: u32, i: u32) -> u32
    requires { slice_index_or closed.now known false ≡ true }
    ensures { slice_index_or closed.now result false ≡ true }
{
    match closed.last_missing(allowed, i) {
        None => known,
        Some(last) => last,
    }
}

/// A member of the closure that is not allowed: in wide sets one that stands about half the way from the known member to attribute i, or the known member if
/// there is none. In scales where the closures have all attributes before i, the intents above reach such a member late.
fn later_missing<const W: usize>(closed: &Bits<W>, allowed: &Bits<W>, known: u32, i: u32) -> u32
    requires member { slice_index_or closed.now known false ≡ true }
    requires lacks { slice_index_or allowed.now known false ≡ false }
    requires inside { i < length closed.now }
    ensures member { slice_index_or closed.now result false ≡ true }
    ensures lacks { slice_index_or allowed.now result false ≡ false }
{
    if W <= 1 {
        return known;
    }
    if known < i {
        let half = known + (i - known) / 2;
        if let Some(later) = closed.minus(allowed).next_member(half) {
            return later;
        }
    }
    known
}
