//! Which member of a closure that failed the larger sets lack for the longest. It shows of them beforehand that theirs fails too.

ghost use Rattle.std.specs.Prelude.{◌≡◌, ◌<◌, true, false, IfSome, slice_index_or};

use attr_bits::Bits;
use derivation::RowsOf;
use fca_model::Memory;
use std::alloc::Global;

/// How many rows have each attribute. The counts only guide a walk, and what it finds is the same with others, so no contract speaks of them.
pub fn supports_of<const W: usize>(alloc: Global, rows: &RowsOf<W>) -> Result<Vec<u32>, Memory> {
    let mut supports = Vec::new(alloc);
    supports.resize(rows.width() as usize, 0)?;
    for row in rows.as_slice() {
        count_members(&mut supports, row);
    }
    Ok(supports)
}

/// Counts the row for each attribute that it has.
fn count_members<const W: usize>(supports: &mut [u32], row: &Bits<W>) {
    let _width = row.width();
    let mut from = 0;
    while let Some(member) = row.next_member(from) {
        if let Some(count) = supports.get_mut(member as usize) {
            *count = count.saturating_add(1);
        }
        from = member + 1;
    }
}

/// A member of the closure before attribute i that a lacks, or none if there is no such member. The sets below a agree with it before attribute `from`, so a member
/// before that is in none of them. If there is none, it is the member with the least support: in a scale, where attributes form chains, it comes into the sets
/// below as the last one, in whatever order the attributes stand.
pub fn lasting_member<const W: usize>(
    closed: &Bits<W>,
    a: &Bits<W>,
    i: u32,
    from: u32,
    supports: &[u32],
) -> Option<u32>
    ensures before { IfSome result (λ k. k < i) }
    ensures member { IfSome result (λ k. slice_index_or closed.now k false ≡ true) }
    ensures lacks { IfSome result (λ k. slice_index_or a.now k false ≡ false) }
{
    match closed.first_missing(a) {
        None => None,
        Some(first) => {
            if i <= first {
                return None;
            }
            if first < from {
                return Some(first);
            }
            Some(rarest_member(&closed.minus(a), first, i, supports))
        }
    }
}

/// The member of the set from the first one on and before attribute `end` that has the least support.
fn rarest_member<const W: usize>(set: &Bits<W>, first: u32, end: u32, supports: &[u32]) -> u32
    requires before { first < end }
    requires member { slice_index_or set.now first false ≡ true }
    ensures before { result < end }
    ensures member { slice_index_or set.now result false ≡ true }
{
    let mut rarest = first;
    let mut least = support_in(supports, first);
    let mut from = first + 1;
    while let Some(member) = set.next_member(from) {
        if end <= member {
            return rarest;
        }
        let support = support_in(supports, member);
        if support < least {
            rarest = member;
            least = support;
        }
        from = member + 1;
    }
    rarest
}

/// The support of the attribute.
fn support_in(supports: &[u32], attribute: u32) -> u32 {
    supports.get(attribute as usize).copied().unwrap_or(0)
}
