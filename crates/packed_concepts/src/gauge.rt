//! A guess at the length of lines. No answer rests on it.

use crate::page::IntentAndCount;

/// About so many bytes of lines are laid out together.
pub(crate) const SHARE: usize = 1 << 18;

/// About how many bytes a line has beside its names.
const MEAN_LINE: usize = 16;

/// About how many bytes a name has with a comma and a space.
#[derive(Clone, Copy)]
pub(crate) struct Gauge {
    pub(crate) attribute: usize,
    pub(crate) object: usize,
}

impl Gauge {
    /// About the number of bytes of the line.
    pub(crate) fn line<const W: usize>(self, one: &IntentAndCount<W>) -> usize {
        let intent = (one.intent.size() as usize).saturating_mul(self.attribute);
        let extent = (one.count as usize).saturating_mul(self.object);
        intent.saturating_add(extent).saturating_add(MEAN_LINE)
    }
}
