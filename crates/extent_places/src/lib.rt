//! Extents in two forms, with the closures of the sets that they are the extents of. One form is the places of the objects in the table. The other is for at
//! most 64 objects: a set of them in one word.
#![tactic(auto)]

mod columns;
mod few;
mod members;
mod objects;
mod places;
mod tries;

pub use columns::Columns;
pub use few::{FewConcept, FewObjects, pays_to_set_apart};
pub use members::{has, insert, lacks, with, without};
pub use objects::{
    FEW_OBJECTS, ObjectSet, closure_of, columns_of, have_all, objects_above, objects_with,
};
pub use places::{closure_at, places_having};
pub use tries::{attributes_to_try, last_member};
