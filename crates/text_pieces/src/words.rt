//! The words of a line.

ghost use Rattle.std.specs.Prelude.{◌≡◌};
ghost use Rattle.text_pieces.specs.Words.{first_word, later_words};

/// The text before the first space, and the text behind it.
pub fn split_word(text: &str) -> (&str, &str)
    ensures first { result.0.now ≡ first_word text.now }
    ensures later { result.1.now ≡ later_words text.now }
{
    text.split_once(' ').unwrap_or((text, ""))
}
