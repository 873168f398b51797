//! The pieces of a short line between its commas.

ghost use Rattle.std.specs.Prelude.{◌≡◌, ◌<◌, ◌≤◌, length, take};
ghost use Rattle.value_tables.specs.Pieces.{ArePieces};

/// The pieces of a line, one after the other, and their lengths.
#[derive(Drop)]
pub struct Pieces {
    text: [u8; 256],
    lengths: [u8; 256],
    end: usize,
    count: usize,
}

impl Pieces {
    /// The bytes of all pieces.
    pub fn text(&self) -> &[u8]
        requires { self.now.end ≤ 256 }
        ensures { result.now ≡ take self.now.end self.now.text }
    {
        &self.text[..self.end]
    }

    /// The length of each piece.
    pub fn lengths(&self) -> &[u8]
        requires { self.now.count ≤ 256 }
        ensures { result.now ≡ take self.now.count self.now.lengths }
    {
        &self.lengths[..self.count]
    }
}

/// Cuts the line at its commas. Each byte goes to the end of the text and each length so far to the place of its piece; only a byte
/// that is no comma moves the end on.
pub fn pieces_of(line: &[u8]) -> Pieces
    requires { length line.now ≤ 255 }
    ensures { ArePieces line.now result }
{
    let mut text = [0; 256];
    let mut lengths = [0; 256];
    let mut count = 0;
    let mut start = 0;
    let mut end = 0;
    for byte in line {
        text[end] = *byte;
        lengths[count] = (end - start) as u8;
        if *byte == b',' {
            count += 1;
            start = end;
        } else {
            end += 1;
        }
    }
    lengths[count] = (end - start) as u8;
    Pieces {
        text,
        lengths,
        end,
        count: count + 1,
    }
}
