//! The text that a command writes: whole, in pieces, or packed.

ghost use Rattle.std.specs.Prelude.{◌≡◌};
ghost use Rattle.std.specs.List.{flat_map};
ghost use Rattle.expert_wire.specs.Parts.{WritesTo};

use expert_wire::write_bytes;
use fca_io::{Put, Sink};
use packed_concepts::ConceptsText;
use std::marker::Model;
use std::thread::Threads;

/// How the bytes of a text are stored.
#[derive(Drop)]
enum Layout {
    OneList(Vec<u8>),
    Pieces(Vec<Vec<u8>>),
    Packed(ConceptsText),
}

/// A text: one list of bytes, a list of pieces in their order, or packed concepts.
#[derive(Drop)]
pub struct Text {
    layout: Layout,
}

impl Model for Text {
    ghost use Rattle.std.specs.Prelude.{ℕ, List};
    ghost use Rattle.command_io.specs.Texts.{bytes_of};

    ghost Value = { List ℕ };

    ghost view = { λ t. bytes_of t.layout };
}

impl Text {
    /// Makes the text of these bytes.
    pub fn whole(bytes: Vec<u8>) -> Text
        ensures { result ≡ bytes.items }
    {
        Text {
            layout: Layout::OneList(bytes),
        }
    }

    /// Makes the text of these pieces in their order.
    pub fn in_pieces(pieces: Vec<Vec<u8>>) -> Text
        ensures { result ≡ flat_map (λ piece. piece.items) pieces.items }
    {
        Text {
            layout: Layout::Pieces(pieces),
        }
    }

    /// Makes the text of these concepts. Its bytes are produced as it is written.
    pub fn packed(text: ConceptsText) -> Text
        ensures { result ≡ text }
    {
        Text {
            layout: Layout::Packed(text),
        }
    }

    /// Appends the whole text to out. After an `Err`, out holds a front of it.
    pub(crate) fn write<R: Threads + Sync, K: Sink>(self, rt: &R, out: &mut K) -> Result<(), Put>
        ensures { WritesTo K.held K.faults K.beside K.read_counts_beside out.old out.new self result }
    {
        match self.layout {
            Layout::OneList(bytes) => write_bytes(out, &bytes),
            Layout::Pieces(pieces) => write_pieces(out, &pieces),
            Layout::Packed(text) => text.write(rt, out),
        }
    }
}

/// Appends the pieces in their order.
fn write_pieces<K: Sink>(out: &mut K, pieces: &[Vec<u8>]) -> Result<(), Put>
    ensures { WritesTo K.held K.faults K.beside K.read_counts_beside out.old out.new (flat_map (λ piece. piece.items) pieces.now) result }
{
    for piece in pieces {
        write_bytes(out, piece)?;
    }
    Ok(())
}
