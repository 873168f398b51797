//! The values of a table, in one text.

ghost use Rattle.std.specs.Prelude.{◌≡◌, ◌<◌, ◌≤◌, ◌+◌, ◌*◌, ◌^◌, ◌++◌, ◌∷◌, [], OnOk, length, sum, slice_index_or, take, vec_len};
ghost use Rattle.value_tables.specs.Cells.{AreCells, StartsRight, cut, texts};

use fca_model::Memory;
use std::alloc::Global;

/// The start of each value at a multiple of this place is kept.
const BLOCK: usize = 16;

/// Values, one after the other in one text.
#[derive(Drop)]
pub struct Cells {
    text: Vec<u8>,
    lengths: Vec<u8>,
    starts: Vec<usize>,
}

impl Cells {
    /// No values. It takes no memory.
    pub fn new(alloc: Global) -> Cells
        ensures cells { AreCells result }
        ensures texts { texts result ≡ [] }
    {
        Cells {
            text: Vec::new(alloc),
            lengths: Vec::new(alloc),
            starts: Vec::new(alloc),
        }
    }

    /// Appends the value. After an `Err` nothing is known of the cells.
    pub fn push(&mut self, value: &[u8]) -> Result<(), Memory>
        requires cells { AreCells self.old }
        requires short { length value.now ≤ 255 }
        ensures cells { OnOk result (AreCells self.new) }
        ensures texts { OnOk result (texts self.new ≡ texts self.old ++ value.now ∷ []) }
    {
        if self.lengths.len() == BLOCK * self.starts.len() {
            self.starts.push(self.text.len())?;
        }
        append(&mut self.text, value)?;
        self.lengths.push(value.len() as u8)?;
        Ok(())
    }

    /// Appends the values of these lengths, which make up the text. After an `Err` nothing is known of the cells.
    pub fn push_all(&mut self, text: &[u8], lengths: &[u8]) -> Result<(), Memory>
        requires cells { AreCells self.old }
        requires whole { sum lengths.now ≡ length text.now }
        ensures cells { OnOk result (AreCells self.new) }
        ensures texts { OnOk result (texts self.new ≡ texts self.old ++ cut lengths.now text.now) }
    {
        self.text.extend_from_slice(text)?;
        self.lengths.extend_from_slice(lengths)?;
        add_starts(&mut self.starts, &self.lengths)?;
        Ok(())
    }

    /// Value k.
    pub fn get(&self, k: usize) -> &[u8]
        requires cells { AreCells self.now }
        requires place { k < vec_len self.now.lengths }
        ensures { result.now ≡ slice_index_or (texts self.now) k [] }
    {
        let start = self.start_of(k);
        let end = start + self.lengths[k] as usize;
        &self.text[start..end]
    }

    /// The place in the text at which value k begins.
    fn start_of(&self, k: usize) -> usize
        requires cells { AreCells self.now }
        requires place { k < vec_len self.now.lengths }
        ensures { result ≡ sum (take k self.now.lengths.items) }
    {
        let block = k / BLOCK;
        self.starts[block] + total(&self.lengths[BLOCK * block..k])
    }
}

/// Adds the missing starts.
fn add_starts(starts: &mut Vec<usize>, lengths: &[u8]) -> Result<(), Memory>
    requires right { StartsRight starts.old.items lengths.now }
    requires needed { 16 * length starts.old.items < length lengths.now + 16 }
    requires small { sum lengths.now < 2 ^ 64 }
    ensures right { OnOk result (StartsRight starts.new.items lengths.now) }
    ensures needed { OnOk result (16 * length starts.new.items < length lengths.now + 16) }
    ensures enough { OnOk result (length lengths.now ≤ 16 * length starts.new.items) }
{
    while BLOCK * starts.len() < lengths.len() {
        starts.push(next_start(starts, lengths))?;
    }
    Ok(())
}

/// The next start.
fn next_start(starts: &[usize], lengths: &[u8]) -> usize
    requires right { StartsRight starts.now lengths.now }
    requires place { 16 * length starts.now ≤ length lengths.now }
    requires small { sum lengths.now < 2 ^ 64 }
    ensures { result ≡ sum (take (16 * length starts.now) lengths.now) }
{
    match starts {
        [] => 0,
        [.., last] => {
            let block = starts.len();
            *last + total(&lengths[BLOCK * (block - 1)..BLOCK * block])
        }
    }
}

/// Appends the value to the text. Most values have one byte or none.
fn append(text: &mut Vec<u8>, value: &[u8]) -> Result<(), Memory>
    ensures { OnOk result (text.new.items ≡ text.old.items ++ value.now) }
{
    match value {
        [] => Ok(()),
        [byte] => Ok(text.push(*byte)?),
        _ => Ok(text.extend_from_slice(value)?),
    }
}

/// The sum of the lengths.
fn total(lengths: &[u8]) -> usize
    requires { length lengths.now ≤ 16 }
    ensures { result ≡ sum lengths.now }
{
    let mut total = 0;
    for n in lengths {
        total += *n as usize;
    }
    total
}
