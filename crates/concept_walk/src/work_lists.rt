//! What the steps of a walk write on.

ghost use Rattle.std.specs.Prelude.{◌≡◌, [], IfOk};
ghost use Rattle.extent_places.specs.Few.{HasNoObject};

use derivation::RowsOf;
use extent_places::FewObjects;
use fca_model::Memory;
use std::alloc::Global;

/// Two lists that a step of the walk writes on. Later steps use them again.
#[derive(Drop)]
pub struct WorkLists {
    /// Places, of which the front was found last.
    pub found: Vec<u16>,
    /// For each attribute a member of the closure with it, or nothing.
    pub noted: Vec<u32>,
}

/// The lists that no step writes on at present, and the few objects that were set apart last.
#[derive(Drop)]
pub struct WorkListPool<const W: usize> {
    pub(crate) spare: Vec<WorkLists>,
    pub(crate) few: FewObjects<W>,
}

impl WorkLists {
    /// Nothing found and nothing noted.
    pub fn new(alloc: Global) -> WorkLists
        ensures { result.noted.items ≡ [] }
    {
        WorkLists {
            found: Vec::new(alloc),
            noted: Vec::new(alloc),
        }
    }
}

impl<const W: usize> WorkListPool<W> {
    /// An empty pool, for walks over these rows.
    pub fn new(alloc: Global, rows: &RowsOf<W>) -> Result<WorkListPool<W>, Memory>
        ensures spare { IfOk result (λ pool. pool.spare.items ≡ []) }
        ensures few { IfOk result (λ pool. HasNoObject pool.few) }
    {
        Ok(WorkListPool {
            spare: Vec::new(alloc),
            few: FewObjects::new(alloc, rows.width())?,
        })
    }
}

/// Takes spare lists, or makes them. Nothing is noted there.
pub(crate) fn take_lists(alloc: Global, spare: &mut Vec<WorkLists>) -> WorkLists
    ensures { result.noted.items ≡ [] }
{
    if let Some(mut work_lists) = spare.pop() {
        work_lists.noted.clear();
        return work_lists;
    }
    WorkLists::new(alloc)
}
