//! Pages of concepts in sets of as many words as the table needs.

ghost use Rattle.std.specs.Prelude.{◌≡◌, ◌≤◌, All, IfOk, length};
ghost use Rattle.std.specs.List.{flat_map};
ghost use Rattle.packed_concepts.specs.Pages.{concepts_on};

use crate::page::ConceptPage;
use attr_bits::WORDS;
use fca_model::Memory;

/// Pages of concepts, one behind the other, by the number of words of a set.
#[derive(Drop)]
pub enum NarrowPages {
    One(Vec<ConceptPage<1>>),
    Two(Vec<ConceptPage<2>>),
    Four(Vec<ConceptPage<4>>),
    Eight(Vec<ConceptPage<8>>),
    All(Vec<ConceptPage<WORDS>>),
}

impl NarrowPages {
    /// The number of concepts.
    pub(crate) fn count(&self) -> Result<usize, Memory>
        ensures { IfOk result (λ count. count ≡ length (concepts_on self.now)) }
    {
        match self {
            NarrowPages::One(pages) => count_on(pages),
            NarrowPages::Two(pages) => count_on(pages),
            NarrowPages::Four(pages) => count_on(pages),
            NarrowPages::Eight(pages) => count_on(pages),
            NarrowPages::All(pages) => count_on(pages),
        }
    }

    /// At least the number of objects of each concept.
    pub(crate) fn most(&self) -> usize
        ensures { All (λ c. length c.1 ≤ result) (concepts_on self.now) }
    {
        match self {
            NarrowPages::One(pages) => most_on(pages),
            NarrowPages::Two(pages) => most_on(pages),
            NarrowPages::Four(pages) => most_on(pages),
            NarrowPages::Eight(pages) => most_on(pages),
            NarrowPages::All(pages) => most_on(pages),
        }
    }
}

/// The number of concepts on the pages.
fn count_on<const W: usize>(pages: &[ConceptPage<W>]) -> Result<usize, Memory>
    requires { W ≤ 1024 }
    ensures { IfOk result (λ count. count ≡ length (flat_map (λ page. page) pages.now)) }
{
    let mut count = 0usize;
    for page in pages {
        let Some(more) = count.checked_add(page.len()) else {
            return Err(Memory);
        };
        count = more;
    }
    Ok(count)
}

/// At least the number of objects of each concept on the pages.
fn most_on<const W: usize>(pages: &[ConceptPage<W>]) -> usize
    requires { W ≤ 1024 }
    ensures { All (λ c. length c.1 ≤ result) (flat_map (λ page. page) pages.now) }
{
    let mut most = 0usize;
    for page in pages {
        most = most.max(page.most());
    }
    most
}
