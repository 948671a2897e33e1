// Files in memory, to be in for real ones.
ghost use Rattle.std.specs.Prelude.{◌≡◌, ◌≢◌, ◌-◌, ◌≤◌, length, min, Some, IfOk, OnOk, OnErr, IsErrOf, option_map};
ghost use Rattle.doc_outer.specs.Counts.{Rose, CountGoesOn};
ghost use Rattle.doc_outer.specs.Held.{file_at, with_file, held_with, OthersStay, Told, ReadsPart, IsAbsent};
ghost use Rattle.doc_outer.specs.Held.{IsFilePart};
ghost use Rattle.doc_outer.specs.Plan.{fails_at, FailsNext};
ghost use Rattle.doc_outer.specs.Store.{empty_store, entry_files, read_answer, store_after, store_putting};

use crate::plan::CallPlan;
use crate::{PutFault, Shelf, ShelfFault};
use doc_bits::{Bytes, Memory, Text};
use std::alloc::Global;
use std::collections::VecDeque;
use std::marker::Model;

/// Files in memory. It tells what it holds, and fails at the calls whose numbers it was given.
#[derive(Drop)]
pub struct MemShelf {
    alloc: Global,
    // The newest first. Of several entries of a name the first counts.
    entries: VecDeque<(Text, Bytes)>,
    plan: CallPlan,
    faults: u64,
    put_faults: u64,
    missed: u64,
}

impl Model for MemShelf {
    ghost use Rattle.doc_outer.specs.Store.{Store, store_code, entry_files};

    ghost Value = { Store };

    ghost coded = { store_code };

    ghost view = { λ s. record {
      files = entry_files s.entries.items;
      plan = s.plan;
      faults = s.faults;
      put_faults = s.put_faults;
      missed = s.missed;
    } };
}

impl MemShelf {
    /// A store with no file, all of whose calls succeed.
    pub fn new(alloc: Global) -> MemShelf
        ensures { result ≡ empty_store }
    {
        MemShelf {
            alloc,
            entries: VecDeque::new(alloc),
            plan: CallPlan::new(alloc),
            faults: 0,
            put_faults: 0,
            missed: 0,
        }
    }

    /// Lets the name hold exactly these bytes. This is no call that has a number.
    pub fn give(&mut self, name: &str, bytes: &[u8]) -> Result<(), Memory>
        ensures ok { OnOk result
            (self.new ≡ record self.old { files = with_file self.old.files name.now bytes.now }) }
        ensures err { OnErr result (self.new ≡ self.old) }
    {
        let mut key = Text::new(self.alloc);
        key.push_all(name)?;
        let content = Bytes::from_slice(self.alloc, bytes)?;
        self.entries.push_front((key, content))?;
        Ok(())
    }

    /// Lets the call of this number fail. Calls are numbered from 1 on.
    pub fn fail_call(&mut self, number: u32) -> Result<(), Memory>
        ensures ok { OnOk result
            (self.new ≡ record self.old { plan = fails_at self.old.plan number }) }
        ensures err { OnErr result (self.new ≡ self.old) }
    {
        self.plan.fail_call(number)
    }
}

/// The bytes of the newest entry of a name.
fn newest<'a>(entries: &'a VecDeque<(Text, Bytes)>, name: &str) -> Option<&'a [u8]>
    ensures { option_map (λ bytes. bytes.now) result
        ≡ file_at (entry_files entries.now.items) name.now }
{
    for (key, content) in entries {
        if name == key.as_str() {
            return Some(content.as_slice());
        }
    }
    None
}

/// Copies what is from `at` on, as far as the buffer has room, and answers how many bytes.
pub fn copy_part(all: &[u8], at: u64, buf: &mut [u8]) -> usize
    ensures count { result ≡ min (length buf.old) (length all.now - at) }
    ensures part { IsFilePart at result buf.new all.now }
{
    let from = (at as usize).min(all.len());
    let rest = &all[from..];
    let count = rest.len().min(buf.len());
    buf[..count].copy_from_slice(&rest[..count]);
    count
}

impl Shelf for MemShelf {
    ghost held = { λ s. Some s.files };

    ghost faults = { λ s. s.faults };

    ghost put_faults = { λ s. s.put_faults };

    ghost missed = { λ s. s.missed };

    /// Takes no memory. A refusal leaves the buffer as it was.
    fn read_at(&mut self, name: &str, at: u64, buf: &mut [u8]) -> Result<usize, ShelfFault>
        // As every shelf.
        ensures kept { Some self.new.files ≡ Some self.old.files }
        ensures within { IfOk result (λ count. count ≤ length buf.old) }
        ensures bytes { IfOk result (λ count.
            Told (Some self.old.files) name.now (ReadsPart at count buf.new)) }
        ensures absent { IsErrOf result ShelfFault.Missing
            → Told (Some self.old.files) name.now IsAbsent }
        ensures failed { IsErrOf result ShelfFault.Failed → Rose self.old.faults self.new.faults }
        ensures missing { IsErrOf result ShelfFault.Missing → Rose self.old.missed self.new.missed }
        ensures no_fault { IsErrOf result ShelfFault.Missing → self.new.faults ≡ self.old.faults }
        ensures memory { IsErrOf result ShelfFault.Memory
            → (self.new.faults ≡ self.old.faults) × (self.new.missed ≡ self.old.missed) }
        ensures faults { CountGoesOn self.old.faults self.new.faults }
        ensures missed { CountGoesOn self.old.missed self.new.missed }
        ensures put_faults { self.new.put_faults ≡ self.old.put_faults }

        // Exactly: the number is looked at first.
        ensures failing { FailsNext self.old.plan → result ≡ Err ShelfFault.Failed }
        ensures answer { ¬ (FailsNext self.old.plan)
            → result ≡ read_answer (file_at self.old.files name.now) at (length buf.old) }
        ensures after { self.new ≡ store_after self.old result }
        ensures buffer { OnErr result (buf.new ≡ buf.old) }
    {
        if self.plan.next_fails() {
            self.faults = self.faults.saturating_add(1);
            return Err(ShelfFault::Failed);
        }
        match newest(&self.entries, name) {
            None => {
                self.missed = self.missed.saturating_add(1);
                Err(ShelfFault::Missing)
            }
            Some(all) => Ok(copy_part(all, at, buf)),
        }
    }

    /// A failed call changes no file.
    fn put(&mut self, name: &str, bytes: &[u8]) -> Result<(), PutFault>
        // As every shelf.
        ensures holds { OnOk result (Some self.new.files ≡ held_with (Some self.old.files) name.now bytes.now) }
        ensures others { OthersStay name.now (Some self.old.files) (Some self.new.files) }
        ensures failed { IsErrOf result PutFault.Failed
            → Rose self.old.faults self.new.faults × Rose self.old.put_faults self.new.put_faults }
        ensures memory { IsErrOf result PutFault.Memory
            → (Some self.new.files ≡ Some self.old.files)
            × ((self.new.faults ≡ self.old.faults)
            × ((self.new.put_faults ≡ self.old.put_faults) × (self.new.missed ≡ self.old.missed))) }
        ensures faults { CountGoesOn self.old.faults self.new.faults }
        ensures put_faults { CountGoesOn self.old.put_faults self.new.put_faults }
        ensures missed { CountGoesOn self.old.missed self.new.missed }

        // Exactly: the number is looked at first.
        ensures failing { FailsNext self.old.plan → result ≡ Err PutFault.Failed }
        ensures answer { ¬ (FailsNext self.old.plan) → result ≢ Err PutFault.Failed }
        ensures after { self.new ≡ store_putting self.old name.now bytes.now result }
    {
        if self.plan.next_fails() {
            self.faults = self.faults.saturating_add(1);
            self.put_faults = self.put_faults.saturating_add(1);
            return Err(PutFault::Failed);
        }
        self.give(name, bytes)?;
        Ok(())
    }
}
