//! The concepts of a table, packed, and the text of their lines. It is written through a buffer that is there before the first byte goes out.
//! The text of a basis puts its names down by the same pieces.
#![tactic(auto)]

mod block;
mod gauge;
mod jobs;
mod line;
mod names;
mod page;
mod pages;
mod pieces;
mod rounds;
mod sheet;
mod stretch;
mod text;
mod writing;

pub use block::{BLOCK_BYTES, TextBlock, put_block};
pub use line::{PUNCTUATION, make_room, room_of};
pub use names::{Names, end_without_comma, put_set};
pub use page::{ConceptPage, IntentAndCount};
pub use pages::NarrowPages;
pub use pieces::{PIECE_BYTES, PIECE_ROOM, Pieces, block_of, put_bytes, tail_of};
pub use rounds::processors;
pub use text::ConceptsText;
