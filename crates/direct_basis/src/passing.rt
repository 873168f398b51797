//! One pass over a list of implications.

ghost use Rattle.std.specs.Prelude.{◌≡◌, length};
ghost use Rattle.fca_model.specs.Context.{Context, closure};
ghost use Rattle.implication_closure.specs.Closing.{HaveWidth};
ghost use Rattle.direct_basis.specs.Direct.{direct, one_pass};

use attr_bits::Attrs;
use implication_closure::{Implication, ImplicationList};

/// The set with the conclusions of all members whose premise lies within it. What they add opens no further premise, so this is the closure under the list only if
/// the list is direct.
pub fn one_pass(list: &ImplicationList, x: &Attrs) -> Attrs
    requires { length x.now ≡ list.now.width }
    ensures pass { result ≡ one_pass list.now.members x.now }
    ensures closure { (K : Context) → K.width ≡ list.now.width → list.now.members ≡ direct K → result ≡ closure K x.now }
{
    pass_over(list.as_slice(), x)
}

/// The set with the conclusions of all these members whose premise lies within it.
fn pass_over(members: &[Implication], x: &Attrs) -> Attrs
    requires { HaveWidth (length x.now) members.now }
    ensures { result ≡ one_pass members.now x.now }
{
    let mut joined = *x;
    for i in members {
        if i.premise.within(x) {
            joined = joined.join(&i.conclusion);
        }
    }
    joined
}
