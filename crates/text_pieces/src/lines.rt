//! The lines of a text, one after the other.

ghost use Rattle.std.specs.Prelude.{◌≡◌, ◌+◌, ◌<◌, ◌^◌, ◌∷◌, [], MatchOption, length};
ghost use Rattle.std.specs.List.{before_first, after_first};
ghost use Rattle.std.specs.Str.Lines.{strip_carriage_return};
ghost use Rattle.text_pieces.specs.Lines.{lines, is_line_feed};
ghost use Rattle.text_pieces.specs.RemainingLines.{RemainingLines, after_blank, after_blanks};

use crate::blanks::is_blank_line;
use std::marker::Model;

/// The rest of a text that is read line by line.
#[derive(Drop)]
pub struct Lines<'a> {
    rest: &'a str,
    number: usize,
}

impl<'a> Model for Lines<'a> {
    ghost use Rattle.std.specs.Prelude.{◌+◌, ◌≤◌, ◌^◌, length};
    ghost use Rattle.text_pieces.specs.Lines.{lines};
    ghost use Rattle.text_pieces.specs.RemainingLines.{RemainingLines};

    ghost Value = { RemainingLines };

    ghost view = { λ l. record { number = l.number; lines = lines l.rest.now } };

    ghost invariant = { λ l. l.number + length l.rest.now ≤ 2 ^ 63 };
}

impl<'a> Lines<'a> {
    /// The lines of the text.
    pub fn new(text: &'a str) -> Lines<'a>
        requires { length text.now < 2 ^ 63 }
        ensures { result ≡ record { number = 1; lines = lines text.now } }
    {
        Lines {
            rest: text,
            number: 1,
        }
    }

    /// The number of the next line.
    pub fn number(&self) -> usize
        ensures { result ≡ self.now.number }
    {
        self.number
    }

    /// The next line.
    pub fn next(&mut self) -> Option<&'a str>
        ensures { MatchOption result
            ((self.old.lines ≡ []) × (self.new ≡ self.old))
            (λ line. (self.old.lines ≡ line.now ∷ self.new.lines) × (self.new.number ≡ self.old.number + 1)) }
    {
        if self.rest.is_empty() {
            return None;
        }
        let (line, rest) = split_line(self.rest);
        self.rest = rest;
        self.number += 1;
        Some(line)
    }

    /// The next line that is not blank, with its number.
    pub fn next_filled(&mut self) -> Option<(usize, &'a str)>
        ensures { MatchOption result
            ((self.new ≡ after_blanks self.old) × (self.new.lines ≡ []))
            (λ p. after_blanks self.old ≡ record { number = p.0; lines = p.1.now ∷ self.new.lines } × (self.new.number ≡ p.0 + 1)) }
    {
        loop {
            let number = self.number();
            match self.next() {
                Some(line) => {
                    if !is_blank_line(line.as_bytes()) {
                        return Some((number, line));
                    }
                }
                None => return None,
            }
        }
    }

    /// Skips the next line if it is blank.
    pub fn skip_blank(&mut self)
        ensures { self.new ≡ after_blank self.old }
    {
        let rest = self.rest;
        let number = self.number;
        if let Some(line) = self.next()
            && !is_blank_line(line.as_bytes())
        {
            self.rest = rest;
            self.number = number;
        }
    }
}

/// The first line of a text that is not empty, and the text behind its line feed.
fn split_line(text: &str) -> (&str, &str)
    requires { 0 < length text.now }
    ensures lines { lines text.now ≡ result.0.now ∷ lines result.1.now }
    ensures shorter { length result.1.now < length text.now }
{
    let (piece, behind) = split_at_feed(text);
    (without_return(piece), behind)
}

fn split_at_feed(text: &str) -> (&str, &str)
    ensures before { result.0.now ≡ before_first is_line_feed text.now }
    ensures behind { result.1.now ≡ after_first is_line_feed text.now }
{
    text.split_once('\n').unwrap_or((text, ""))
}

/// The piece without the carriage return at its end.
fn without_return(piece: &str) -> &str
    ensures { result.now ≡ strip_carriage_return piece.now }
{
    piece.strip_suffix('\r').unwrap_or(piece)
}
