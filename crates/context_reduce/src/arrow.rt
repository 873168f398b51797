//! What the arrows of a table are.

ghost use Rattle.std.specs.Prelude.{◌≡◌, ◌<◌, length, map, slice_index_or, []};

use std::marker::Model;

/// How an object stands to an attribute.
#[derive(Clone, Copy, Debug, PartialEq, Eq)]
pub enum Arrow {
    /// The object has the attribute.
    Cross,
    /// It lacks the attribute, and there is no arrow.
    Plain,
    /// It lacks the attribute, and each object whose row strictly contains its row has it.
    Down,
    /// It lacks the attribute, and has each one whose column strictly contains the attribute's.
    Up,
    /// The arrow down and the arrow up.
    Both,
}

/// The arrows of a table, one list for each object.
#[derive(Drop)]
pub struct Arrows {
    rows: Vec<Vec<Arrow>>,
}

impl Model for Arrows {
    ghost use Rattle.std.specs.Prelude.{List, map};
    ghost use Rattle.context_reduce.specs.declared.arrow.Arrow.{Arrow};

    ghost Value = { List (List Arrow) };

    ghost view = { λ a. map (λ row. row.items) a.rows.items };
}

impl Arrows {
    /// The arrows in these lists.
    pub(crate) fn of(rows: Vec<Vec<Arrow>>) -> Arrows
        ensures { result ≡ map (λ row. row.items) rows.items }
    {
        Arrows { rows }
    }

    /// The arrows of object g, one for each attribute.
    pub(crate) fn of_object(&self, g: usize) -> &[Arrow]
        requires { g < length self.now }
        ensures { result.now ≡ slice_index_or self.now g [] }
    {
        &self.rows[g]
    }

    /// How object g stands to attribute m. The lists of `arrows` are as wide as the table.
    pub fn at(&self, g: usize, m: u32) -> Arrow
        requires object { g < length self.now }
        requires attribute { m < length (slice_index_or self.now g []) }
        ensures { result ≡ slice_index_or (slice_index_or self.now g []) m Arrow.Plain }
    {
        self.rows[g][m as usize]
    }
}
