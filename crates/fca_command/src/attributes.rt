//! The attributes that a word names.

ghost use Rattle.std.specs.Prelude.{◌≡◌, ◌∷◌, length, position, bytes_eq, option_copied, IfSome};
ghost use Rattle.std.specs.List.{slice_split};
ghost use Rattle.fca_command.specs.Attributes.{is_comma, attribute_set, later_parts};

use attr_bits::Attrs;
use context_table::Table;
use text_pieces::{is_blank_line, trim};

/// The set of attributes that the word names, separated by commas. A blank word names the empty set. The result is `None` if some name is
/// no attribute's.
pub fn attribute_set(table: &Table, word: &[u8]) -> Option<Attrs>
    ensures said { result ≡ attribute_set table.now.attributes word.now }
    ensures wide { IfSome result (λ set. length set ≡ table.now.context.width) }
{
    let mut said = Attrs::empty(table.rows().width());
    let mut rest = if is_blank_line(word) {
        None
    } else {
        Some(word)
    };
    while let Some(text) = rest {
        let (item, later) = split_item(text);
        let place = place_of(table, trim(item))?;
        said.insert(place);
        rest = later;
    }
    Some(said)
}

/// The text before the first comma, and the text after it if there is one.
fn split_item(text: &[u8]) -> (&[u8], Option<&[u8]>)
    ensures { slice_split is_comma text.now ≡ result.0.now ∷ later_parts (option_copied result.1) }
{
    match first_comma(text) {
        Some(at) => (&text[..at], Some(&text[at + 1..])),
        None => (text, None),
    }
}

fn first_comma(text: &[u8]) -> Option<usize>
    ensures { result ≡ position is_comma text.now }
{
    text.iter().position(|byte| *byte == b',')
}

/// The place of the attribute with this name.
fn place_of(table: &Table, name: &[u8]) -> Option<u32>
    ensures { result ≡ position (bytes_eq name.now) table.now.attributes }
{
    for place in 0..table.rows().width() {
        if name == table.attribute_name(place).bytes() {
            return Some(place);
        }
    }
    None
}
