//! The law of the order by size, as the contract of a function that does nothing.
//!
//! `S` is what is known beforehand, and `K` a context.

ghost use Rattle.std.specs.Prelude.{◌≡◌, List, length};
ghost use Rattle.fca_model.specs.Context.{Context};
ghost use Rattle.fca_model.specs.Implications.{Rule};
ghost use Rattle.fca_model.specs.Pseudo.{basis_known};
ghost use Rattle.fca_model.specs.Levels.{by_size};
ghost use Rattle.fca_model.specs.Invariant.{SameMembers};

/// By size or in lectic order, the basis has the same members, each once.
pub fn by_size_is_the_basis()
    ensures members { (S : List Rule) (K : Context) → SameMembers (by_size S K) (basis_known S K) }
    ensures each_once { (S : List Rule) (K : Context) → length (by_size S K) ≡ length (basis_known S K) }
{}
