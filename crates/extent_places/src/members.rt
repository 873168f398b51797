//! Members of sets. It is proved that a place stands in the words of a set. The tests here say it to the compiler too, which then keeps a set of one word in a
//! register.

ghost use Rattle.std.specs.Prelude.{◌≡◌, ◌<◌, ◌*◌, true, false, length, slice_index_or, slice_set};

use attr_bits::Bits;

/// Whether place i is a member.
pub fn has<const W: usize>(set: &Bits<W>, i: u32) -> bool
    requires { i < length set.now }
    ensures { result ≡ slice_index_or set.now i false }
{
    let _width = set.width();
    is_in_words::<W>(i) && set.has(i)
}

/// Whether i is a place of the set and no member.
pub fn lacks<const W: usize>(set: &Bits<W>, i: u32) -> bool
    ensures inside { result ≡ true → i < length set.now }
    ensures lacks { result ≡ true → slice_index_or set.now i false ≡ false }
{
    i < set.width() && !has(set, i)
}

/// Adds place i.
pub fn insert<const W: usize>(set: &mut Bits<W>, i: u32)
    requires { i < length set.old }
    ensures { set.new ≡ slice_set set.old i true }
{
    let _width = set.width();
    if is_in_words::<W>(i) {
        set.insert(i);
    }
}

/// The set with place i added.
pub fn with<const W: usize>(set: &Bits<W>, i: u32) -> Bits<W>
    requires { i < length set.now }
    ensures { result ≡ slice_set set.now i true }
{
    let mut larger = *set;
    insert(&mut larger, i);
    larger
}

/// The set with place i taken out.
pub fn without<const W: usize>(set: &Bits<W>, i: u32) -> Bits<W>
    requires { i < length set.now }
    ensures { result ≡ slice_set set.now i false }
{
    let _width = set.width();
    if is_in_words::<W>(i) {
        set.without(i)
    } else {
        *set
    }
}

/// Adds place i if `member` is true, and else takes it out.
pub(crate) fn put<const W: usize>(set: &mut Bits<W>, i: u32, member: bool)
    requires { i < length set.old }
    ensures { set.new ≡ slice_set set.old i member }
{
    if member {
        insert(set, i);
    } else {
        *set = without(set, i);
    }
}

/// Whether place i stands in one of W words.
fn is_in_words<const W: usize>(i: u32) -> bool
    ensures { i < 64 * W → result ≡ true }
{
    ((i / 64) as usize) < W
}
