//! Laws of the definitions, each the contract of a function that does nothing.

ghost use Rattle.std.specs.Prelude.{◌≡◌, ◌==◌, ℕ, length, true, not};
ghost use Rattle.std.specs.List.{list_all, list_any, range_with_len};
ghost use Rattle.fca_model.specs.Context.{Context};
ghost use Rattle.context_reduce.specs.Reduce.{distinct_objects, distinct_attributes, irreducible_objects, irreducible_attributes};
ghost use Rattle.context_reduce.specs.Reduce.{KeepsIntents};
ghost use Rattle.context_reduce.specs.Reduce.{reducible, transpose, column, row_at, up_arrow, down_arrow};

/// The intents of the clarified context and of the reduced one are those of the context, read at the attributes
/// that are kept.
pub fn parts_are_isomorphic()
    ensures clarified { (K : Context) → list_all (λ row. length row == K.width) K.rows ≡ true
        → KeepsIntents K (distinct_objects K) (distinct_attributes K) }
    ensures reduced { (K : Context) → list_all (λ row. length row == K.width) K.rows ≡ true
        → KeepsIntents K (irreducible_objects K) (irreducible_attributes K) }
{}

/// An attribute is not reducible exactly if some object has an up arrow to it. An object is not reducible exactly
/// if it has a down arrow to some attribute.
pub fn arrows_tell_irreducibles()
    ensures attributes { (K : Context) (m : ℕ)
        → not (reducible (transpose K) (column K m)) ≡ list_any (λ g. up_arrow K g m) (range_with_len 0 (length K.rows)) }
    ensures objects { (K : Context) (g : ℕ) → length (row_at K g) ≡ K.width
        → not (reducible K (row_at K g)) ≡ list_any (down_arrow K g) (range_with_len 0 K.width) }
{}
