//! Pieces of texts of any bytes.

ghost use Rattle.std.specs.Prelude.{◌≡◌, position, ◌==◌};
ghost use Rattle.std.specs.List.{before_first, after_first};
ghost use Rattle.std.specs.Str.Lines.{strip_carriage_return};
ghost use Rattle.text_pieces.specs.Lines.{is_line_feed};
ghost use Rattle.text_pieces.specs.Words.{first_word, later_words};

/// The first line of the text, and the text behind its line feed.
pub fn split_line(text: &[u8]) -> (&[u8], &[u8])
    ensures line { result.0.now ≡ strip_carriage_return (before_first is_line_feed text.now) }
    ensures behind { result.1.now ≡ after_first is_line_feed text.now }
{
    let (piece, behind) = split_at_byte(b'\n', text);
    (without_return(piece), behind)
}

/// The line without one carriage return at its end, if it has one.
pub fn without_return(line: &[u8]) -> &[u8]
    ensures { result.now ≡ strip_carriage_return line.now }
{
    line.strip_suffix(b"\r").unwrap_or(line)
}

/// The text before the first space, and the text behind it.
pub fn split_word(text: &[u8]) -> (&[u8], &[u8])
    ensures first { result.0.now ≡ first_word text.now }
    ensures later { result.1.now ≡ later_words text.now }
{
    split_at_byte(b' ', text)
}

/// The text before the first such byte, and the text behind it.
fn split_at_byte(end: u8, text: &[u8]) -> (&[u8], &[u8])
    ensures before { result.0.now ≡ before_first (λ byte. byte == end) text.now }
    ensures behind { result.1.now ≡ after_first (λ byte. byte == end) text.now }
{
    match first_place(end, text) {
        Some(place) => (&text[..place], &text[place + 1..]),
        None => (text, &[]),
    }
}

fn first_place(end: u8, text: &[u8]) -> Option<usize>
    ensures { result ≡ position (λ byte. byte == end) text.now }
{
    text.iter().position(|byte| *byte == end)
}
