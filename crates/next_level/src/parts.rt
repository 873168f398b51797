//! A walk in parts, which several threads share.

ghost use Rattle.std.specs.Prelude.{◌≡◌, ◌≤◌, ◌+◌, IfOk};
ghost use Rattle.fca_model.specs.Sets.{size};
ghost use Rattle.next_level.specs.NextLevel.{everything};
ghost use Rattle.next_level.specs.Branches.{AreOpen, HasParts, in_part, part_at};

use crate::branches::{LevelWalk, Limits};
use crate::open_sets::OpenSets;
use fca_model::Memory;
use rayon::prelude::*;
use std::alloc::Global;
use std::snapshot::Snapshot;
use std::thread::Threads;

/// Starts threads where a handle may. It has no bytes of the handle, so threads share it, whatever the handle is.
#[derive(Drop)]
struct Spawner<R> {
    handle: Snapshot<R>,
}

impl<R: Threads> Threads for Spawner<R> {}

impl<R: Threads> Spawner<R> {
    /// What the handle may do.
    fn of(rt: &R) -> Spawner<R> {
        Spawner {
            handle: Snapshot::of(rt),
        }
    }
}

impl<const W: usize> LevelWalk<W> {
    /// All open sets, part by part. Several threads share the parts, and each piece that `collect` makes of their list has about as much to do.
    pub(crate) fn open_sets_by_parts<R: Threads>(
        &self,
        rt: &R,
        alloc: Global,
        count: u32,
        limits: Limits,
    ) -> Result<OpenSets<W>, Memory>
        requires inside { count ≤ self.now.indexed.width }
        requires small { size self.now.least ≤ limits.bound }
        ensures { IfOk result (λ sets. AreOpen self.now.list.members self.now.indexed everything limits.bound sets.bound sets.members.items) }
    {
        let parts = self.walk_parts(&Spawner::of(rt), alloc, count, limits)?;
        self.join_parts(alloc, &parts, count, limits)
    }

    /// The open sets of each part.
    fn walk_parts<R: Threads + Sync>(
        &self,
        rt: &R,
        alloc: Global,
        count: u32,
        limits: Limits,
    ) -> Result<Vec<OpenSets<W>>, Memory>
        requires inside { count ≤ self.now.indexed.width }
        requires small { size self.now.least ≤ limits.bound }
        ensures { IfOk result (λ parts. HasParts self.now.list.members self.now.indexed count self.now.least limits.bound parts.items) }
    {
        let _width = self.list.width();
        let parts = (0..count + 1)
            .into_par_iter()
            .map(
                |place: u32| -> Result<OpenSets<W>, Memory>
                    requires { (place ≤ count) × (count ≤ self.now.indexed.width) × (size self.now.least ≤ limits.bound) }
                    ensures { IfOk result (λ sets. AreOpen self.entry.now.list.members self.entry.now.indexed
                        (in_part count (part_at count place) self.entry.now.least) limits.bound sets.bound sets.members.items) }
                { self.open_sets_in_part(alloc, count, part_at(count, place), limits) },
            )
            .with_min_len(1)
            .collect::<Result<Vec<_>, Memory>>(rt, alloc);
        match parts {
            Ok(parts) => parts,
            Err(_) => Err(Memory),
        }
    }

    /// The open sets of all parts together.
    fn join_parts(
        &self,
        alloc: Global,
        parts: &[OpenSets<W>],
        count: u32,
        limits: Limits,
    ) -> Result<OpenSets<W>, Memory>
        requires inside { count ≤ self.now.indexed.width }
        requires parts { HasParts self.now.list.members self.now.indexed count self.now.least limits.bound parts.now }
        ensures { IfOk result (λ sets. AreOpen self.now.list.members self.now.indexed everything limits.bound sets.bound sets.members.items) }
    {
        let _width = self.list.width();
        let mut all = OpenSets::new(alloc, limits);
        for part in 0..count + 1 {
            all.append(alloc, &parts[place_of(count, part) as usize])?;
        }
        Ok(all)
    }
}

/// The part at a place of the list: one from the front and one from the end by turns.
fn part_at(count: u32, place: u32) -> u32
    requires { place ≤ count }
    ensures part { result ≡ part_at count place }
    ensures inside { result ≤ count }
{
    if place % 2 == 0 {
        place / 2
    } else {
        count - place / 2
    }
}

/// The place of the part in the list.
fn place_of(count: u32, part: u32) -> u32
    requires { part ≤ count }
    ensures place { part_at count result ≡ part }
    ensures inside { result ≤ count }
{
    if part <= count - part {
        2 * part
    } else {
        2 * (count - part) + 1
    }
}
