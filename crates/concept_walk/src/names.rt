//! The names of a table as pieces, each with a comma and a space behind it.

ghost use Rattle.std.specs.Prelude.{◌≡◌, ◌≤◌, ◌++◌, ◌∷◌, [], map, length, IfOk, OnOk};
ghost use Rattle.packed_concepts.specs.Listing.{with_comma};
ghost use Rattle.packed_concepts.specs.Pieces.{ArePieces, piece_texts};

use context_table::Table;
use fca_model::{MAX_NAME_BYTES, Memory, Name};
use packed_concepts::{Names, Pieces, TextBlock, block_of, tail_of};
use std::alloc::Global;

/// The names of the objects and of the table's attributes. Those of the objects are dropped once they are in pieces.
pub fn table_names(alloc: Global, objects: Vec<Name>, table: &Table) -> Result<Names, Memory>
    ensures { IfOk result (λ names. names ≡ record { attributes = table.now.attributes; objects = objects.items }) }
{
    let attributes = attribute_pieces(alloc, table)?;
    let objects = object_pieces(alloc, &objects)?;
    Ok(Names::new(attributes, objects))
}

/// The names of the attributes.
pub fn attribute_pieces(alloc: Global, table: &Table) -> Result<Pieces, Memory>
    ensures { IfOk result (λ pieces. pieces ≡ map with_comma table.now.attributes) }
{
    let width = table.rows().width();
    let mut blocks = Vec::with_capacity(alloc, width as usize)?;
    let mut tails = Vec::with_capacity(alloc, width as usize)?;
    let mut text = Vec::new(alloc);
    for attribute in 0..width {
        let name = table.attribute_name(attribute).bytes();
        add_name(alloc, &mut text, &mut blocks, &mut tails, name)?;
    }
    Ok(Pieces::new(blocks, tails))
}

/// The names of the objects.
fn object_pieces(alloc: Global, objects: &[Name]) -> Result<Pieces, Memory>
    ensures { IfOk result (λ pieces. pieces ≡ map with_comma objects.now) }
{
    let mut blocks = Vec::with_capacity(alloc, objects.len())?;
    let mut tails = Vec::with_capacity(alloc, objects.len())?;
    let mut text = Vec::new(alloc);
    for object in objects {
        let name = object.bytes();
        add_name(alloc, &mut text, &mut blocks, &mut tails, name)?;
    }
    Ok(Pieces::new(blocks, tails))
}

/// Adds the piece of the name to the blocks and tails. The name is laid out in the text, whose room serves all names.
fn add_name(
    alloc: Global,
    text: &mut Vec<u8>,
    blocks: &mut Vec<TextBlock>,
    tails: &mut Vec<Vec<u8>>,
    name: &[u8],
) -> Result<(), Memory>
    requires short { length name.now ≤ MAX_NAME_BYTES }
    requires pieces { ArePieces blocks.old.items (map (λ v. v.items) tails.old.items) }
    ensures pieces { OnOk result (ArePieces blocks.new.items (map (λ v. v.items) tails.new.items)) }
    ensures texts { OnOk result (piece_texts blocks.new.items (map (λ v. v.items) tails.new.items)
        ≡ piece_texts blocks.old.items (map (λ v. v.items) tails.old.items) ++ with_comma name.now ∷ []) }
{
    put_with_comma(text, name)?;
    blocks.push(block_of(text))?;
    tails.push(tail_of(alloc, text)?)?;
    Ok(())
}

/// Puts the name with a comma and a space behind it into the text, in place of what it had.
fn put_with_comma(text: &mut Vec<u8>, name: &[u8]) -> Result<(), Memory>
    ensures { OnOk result (text.new.items ≡ with_comma name.now) }
{
    text.clear();
    text.extend_from_slice(name)?;
    text.extend_from_slice(b", ")?;
    Ok(())
}
