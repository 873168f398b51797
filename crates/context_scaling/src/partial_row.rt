//! A row that is filled from its first place on.

ghost use Rattle.std.specs.Prelude.{◌≡◌, ◌<◌, ◌≤◌, ◌++◌, ◌∷◌, [], length};

use attr_bits::Attrs;
use fca_model::MAX_ATTRIBUTES;
use std::marker::Model;

/// A row whose first places are filled.
#[derive(Drop)]
pub struct PartialRow {
    row: Attrs,
    at: u32,
}

impl Model for PartialRow {
    ghost use Rattle.std.specs.Prelude.{length, take};
    ghost use Rattle.context_scaling.specs.Marks.{PartialRow, IsFilled};

    ghost Value = { PartialRow };

    ghost view = { λ f. record { width = length f.row; marks = take f.at f.row } };

    ghost invariant = { λ f. IsFilled f.row f.at };
}

impl PartialRow {
    /// A row of this width with no place filled.
    pub fn new(width: u32) -> PartialRow
        requires { width ≤ MAX_ATTRIBUTES }
        ensures { result ≡ record { width = width; marks = [] } }
    {
        PartialRow {
            row: Attrs::empty(width),
            at: 0,
        }
    }

    /// Fills the next place.
    pub fn put(&mut self, cross: bool)
        requires { length self.old.marks < self.old.width }
        ensures { self.new ≡ record self.old { marks = self.old.marks ++ cross ∷ [] } }
    {
        if cross {
            self.row.insert(self.at);
        }
        self.at += 1;
    }

    /// The row. All its places are filled.
    pub fn finish(self) -> Attrs
        requires { length self.marks ≡ self.width }
        ensures { result ≡ self.marks }
    {
        self.row
    }
}
