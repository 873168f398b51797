//! Spaces and tabs.

ghost use Rattle.std.specs.Prelude.{◌≡◌, length};
ghost use Rattle.text_pieces.specs.Blanks as blank;

/// Whether the byte is a space or a tab.
fn is_blank(byte: u8) -> bool
    ensures { result ≡ blank.is_blank byte }
{
    byte == b' ' || byte == b'\t'
}

/// Whether the line has only blanks.
pub fn is_blank_line(line: &[u8]) -> bool
    ensures { result ≡ blank.is_blank_line line.now }
{
    line.iter().all(|byte| is_blank(*byte))
}

/// The line without the blanks before its first other byte.
fn without_blanks_before(line: &[u8]) -> &[u8]
    ensures { result.now ≡ blank.without_blanks_before line.now }
{
    let mut rest = line;
    while let [first, after @ ..] = rest
        && is_blank(*first)
    {
        rest = after;
    }
    rest
}

/// The line without the blanks after its last other byte.
fn without_blanks_after(line: &[u8]) -> &[u8]
    ensures { result.now ≡ blank.without_blanks_after line.now }
{
    let mut rest = line;
    while let [before @ .., last] = rest
        && is_blank(*last)
    {
        rest = before;
    }
    rest
}

/// The line without the blanks at its ends.
pub fn trim(line: &[u8]) -> &[u8]
    ensures { result.now ≡ blank.trim line.now }
{
    without_blanks_after(without_blanks_before(line))
}
