//! The closure under the members of a list, each of which waits for one attribute of its premise.

ghost use Rattle.std.specs.Prelude.{◌≡◌, ℕ, true, false, length, slice_index_or, OnOk, IfOk};
ghost use Rattle.std.specs.List.{list_all};
ghost use Rattle.fca_model.specs.Sets.{within, agree_before};
ghost use Rattle.implication_closure.specs.Closing.{HaveWidth};
ghost use Rattle.lectic_basis.specs.Watches.{bucket, CanClose, Differs, IsBounded, HasMoved, IsClosedBefore, IsSettling, IsSorted};

use crate::watched_list::WatchedList;
use attr_bits::Bits;
use fca_model::Memory;

/// Closes the set, which contains `done`, under the members. Whether the closure agrees with `done` before the limit. If it does not, the set is left as a part of
/// it that differs there. Members that wait for an attribute of the closure wait for another from then on.
pub fn close<const W: usize>(
    found: &mut WatchedList<W>,
    done: &Bits<W>,
    reached: &mut Bits<W>,
    limit: u32,
) -> Result<bool, Memory>
    requires { CanClose found.old limit done.now reached.old }
    ensures moved { OnOk result (HasMoved done.now found.old found.new) }
    ensures bounded { OnOk result (IsBounded found.old.list.members reached.old reached.new) }
    ensures closure { IfOk result (λ agrees. agrees ≡ true → IsClosedBefore found.old.list.members found.new.buckets limit done.now reached.old reached.new) }
    ensures differs { IfOk result (λ agrees. agrees ≡ false → Differs found.old.list.members limit done.now reached.old) }
{
    let _width = found.width();
    let mut seen = *done;
    while let Some(z) = reached.first_missing(&seen) {
        if !settle(found, z, done, limit, reached)? {
            return Ok(false);
        }
        seen.insert(z);
    }
    Ok(true)
}

/// Looks through the bucket of attribute z of the set, which takes in conclusions. Whether it still agrees with `done` before the limit. If not, the rest of the
/// bucket is not looked at.
fn settle<const W: usize>(
    found: &mut WatchedList<W>,
    z: u32,
    done: &Bits<W>,
    limit: u32,
    reached: &mut Bits<W>,
) -> Result<bool, Memory>
    requires room { length found.old.buckets ≡ length reached.old }
    requires member { slice_index_or reached.old z false ≡ true }
    requires above { within done.now reached.old ≡ true }
    requires agree { agree_before limit done.now reached.old ≡ true }
    requires sorted { IsSorted found.old.buckets }
    requires wide { (w : ℕ) → HaveWidth (length reached.old) (bucket w found.old.buckets) }
    ensures list { found.new.list ≡ found.old.list }
    ensures settling { OnOk result (IsSettling z 0 reached.old reached.new found.old.buckets found.new.buckets) }
    ensures finished { IfOk result (λ finished. finished ≡ true → list_all (λ i. within i.conclusion reached.new) (bucket z found.new.buckets) ≡ true) }
    ensures agree { IfOk result (λ finished. finished ≡ agree_before limit done.now reached.new) }
{
    let _width = found.width();
    let mut k = 0;
    while k < found.count(z) {
        match found.premise(z, k).first_missing(reached) {
            Some(other) => found.move_to(z, k, other)?,
            None => {
                *reached = reached.join(&found.conclusion(z, k));
                if !agrees(done, reached, limit) {
                    return Ok(false);
                }
                k += 1;
            }
        }
    }
    Ok(true)
}

/// Whether the larger set agrees with a before attribute `from`.
pub(crate) fn agrees<const W: usize>(a: &Bits<W>, larger: &Bits<W>, from: u32) -> bool
    requires { within a.now larger.now ≡ true }
    ensures { result ≡ agree_before from a.now larger.now }
{
    match larger.first_missing(a) {
        None => true,
        Some(first) => from <= first,
    }
}
