//! A shelf in memory.

ghost use Rattle.std.specs.Prelude.{◌≡◌, ◌≢◌, ◌≤◌, ◌<◌, ◌↔◌, ◌⊎◌, ◌∷◌, [], ℕ, List, length, vec_len, false, Some, None, Result, IfOk, OnOk};
ghost use Rattle.std.specs.Prelude.{OnErr, IsErrOf, IsTrue};
ghost use Rattle.std.specs.Option.{option_copied, option_map};
ghost use Rattle.fca_io.specs.Faults.{Rose, one_more};
ghost use Rattle.fca_io.specs.Shelves.{MayHold, MayExceed, bytes_under};
ghost use Rattle.fca_io.specs.Forms.{failure_plan_of, fails_next, after_call, with_fault};

use super::plan::FailingCalls;
use crate::outside::{Shelf, Taken};
use fca_model::Memory;
use std::alloc::Global;
use std::marker::Model;

/// A file: bytes under a name.
#[derive(Drop)]
struct File {
    name: Vec<u8>,
    bytes: Vec<u8>,
}

impl Model for File {
    ghost use Rattle.fca_io.specs.Shelves.{NamedBytes};

    ghost Value = { NamedBytes };

    ghost view = { λ f. record { name = f.name.items; bytes = f.bytes.items } };
}

/// A shelf in memory with a list of the calls that fail.
#[derive(Drop)]
pub struct MemoryShelf {
    // the newest first
    files: Vec<File>,
    calls: FailingCalls,
}

impl Model for MemoryShelf {
    ghost use Rattle.fca_io.specs.Forms.{Files};

    ghost Value = { Files };

    ghost view = { λ s. record { files = s.files.items; plan = s.calls } };
}

impl MemoryShelf {
    /// An empty shelf. Its fetches with the numbers `fails`, counted from 1, fail.
    pub fn new(alloc: Global, fails: &[usize]) -> Result<MemoryShelf, Memory>
        ensures { IfOk result (λ shelf. shelf ≡ record { files = []; plan = failure_plan_of fails.now }) }
    {
        Ok(MemoryShelf {
            files: Vec::new(alloc),
            calls: FailingCalls::new(alloc, fails)?,
        })
    }

    /// Puts the bytes under the name, in place of what was there.
    pub fn put(&mut self, name: &[u8], bytes: &[u8]) -> Result<(), Memory>
        ensures ok { OnOk result (self.new ≡ record self.old { files = record { name = name.now; bytes = bytes.now } ∷ self.old.files }) }
        ensures err { OnErr result (self.new ≡ self.old) }
    {
        let alloc = *self.files.allocator();
        let file = File {
            name: Vec::from_slice(alloc, name)?,
            bytes: Vec::from_slice(alloc, bytes)?,
        };
        self.files.insert(0, file)?;
        Ok(())
    }
}

/// The bytes of the first file of the name.
fn bytes_under<'a>(files: &'a [File], name: &[u8]) -> Option<&'a [u8]>
    ensures { option_copied result ≡ bytes_under files.now name.now }
{
    files
        .iter()
        .find(|file| file.name.as_slice() == name)
        .map(|file| file.bytes.as_slice())
}

impl Shelf for MemoryShelf {
    ghost use Rattle.std.specs.Prelude.{Some};
    ghost use Rattle.fca_io.specs.Shelves.{bytes_under};

    ghost tells = { λ s name. Some (bytes_under s.files name) };

    ghost faults = { λ s _. s.plan.faults };

    ghost fetches = { λ s. Some s.plan.made };

    fn fetch(&mut self, alloc: Global, name: &[u8], limit: usize) -> Result<Vec<u8>, Taken>
        // Which call fails, and which file is too long.
        ensures fails { IsErrOf result Taken.Failed ↔ (IsTrue (fails_next self.old.plan) ⊎ (bytes_under self.old.files name.now ≡ None)) }
        ensures exceeds { fails_next self.old.plan ≡ false → (file : List ℕ) → bytes_under self.old.files name.now ≡ Some file → limit < length file
            → IsErrOf result Taken.Long }
        ensures failing { IsTrue (fails_next self.old.plan) → self.new.plan ≡ after_call self.old.plan }
        ensures missing { fails_next self.old.plan ≡ false → bytes_under self.old.files name.now ≡ None → self.new.plan ≡ with_fault (after_call self.old.plan) }
        ensures found { (file : List ℕ) → bytes_under self.old.files name.now ≡ Some file → self.new.plan ≡ after_call self.old.plan }

        ensures bytes { IfOk result (λ v. MayHold (Some (bytes_under self.old.files name.now)) v.items) }
        ensures within { IfOk result (λ v. vec_len v ≤ limit) }
        ensures long { IsErrOf result Taken.Long → MayExceed (Some (bytes_under self.old.files name.now)) limit }
        ensures files { self.new.files ≡ self.old.files }
        ensures kept { (other : List ℕ) → Some (bytes_under self.new.files other) ≡ Some (bytes_under self.old.files other) }
        ensures counted { Some self.new.plan.made ≡ option_map one_more (Some self.old.plan.made) }

        ensures quiet { ¬ IsErrOf result Taken.Failed → (other : List ℕ) → self.new.plan.faults ≡ self.old.plan.faults }
        ensures failed { IsErrOf result Taken.Failed → Rose self.old.plan.faults self.new.plan.faults }
        ensures only_rise { (other : List ℕ) → self.old.plan.faults ≤ self.new.plan.faults }
    {
        if self.calls.next_fails() {
            return Err(Taken::Failed);
        }
        let Some(bytes) = bytes_under(&self.files, name) else {
            self.calls.count_fault();
            return Err(Taken::Failed);
        };
        if bytes.len() > limit {
            return Err(Taken::Long);
        }
        Ok(Vec::from_slice(alloc, bytes)?)
    }
}
