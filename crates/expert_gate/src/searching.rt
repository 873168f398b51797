//! Events applied to the shared exploration with the help of a search for the next level.

use crate::shared::SharedExplore;
use explore_state::{Event, LevelSearch, Reply};
use fca_model::Memory;
use turn_lock::Applies;

/// The exploration, helped by the search.
#[derive(Drop)]
pub(crate) struct SearchHelper<'a, S> {
    pub(crate) search: &'a S,
}

impl<'a, S: LevelSearch> Applies<SharedExplore> for SearchHelper<'a, S> {
    fn apply(&self, value: &mut SharedExplore, event: Event) -> Result<Reply, Memory> {
        let reply = value.explore.apply_by(self.search, event);
        let _journal = value.explore.journal();
        reply
    }
}
