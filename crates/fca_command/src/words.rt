//! Lists of words.

ghost use Rattle.std.specs.Prelude.{◌≡◌};

use fca_model::Word;
use std::marker::Model;

/// A list of words.
#[derive(Drop)]
pub struct Words {
    words: Vec<Word>,
}

impl Model for Words {
    ghost use Rattle.std.specs.Prelude.{List, ℕ};

    ghost Value = { List (List ℕ) };

    ghost view = { λ list. list.words.items };
}

impl Words {
    /// Makes the list of these words.
    pub fn new(words: Vec<Word>) -> Words
        ensures { result ≡ words.items }
    {
        Words { words }
    }

    /// The words in their order.
    pub fn as_slice(&self) -> &[Word]
        ensures { result.now ≡ self.now }
    {
        &self.words
    }

    /// Gives the words back.
    pub fn into_vec(self) -> Vec<Word>
        ensures { result.items ≡ self }
    {
        self.words
    }
}
