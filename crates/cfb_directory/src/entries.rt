// The entries of the directory that the root reaches, after the rules 6 to 9; and rule 10.
ghost use Rattle.std.specs.Prelude.{◌≡◌, ◌+◌, ◌<◌, ◌≤◌, IfOk, MatchResult, length};
ghost use Rattle.cfb_sectors.specs.Chain.{AreSectorsOf};
ghost use Rattle.cfb_directory.specs.Directory.{IsEntryName, entry_clsid, entry_name_length};
ghost use Rattle.cfb_directory.specs.Reach.{IsDirectory, IsReachedEntry, IsWrongNameLength, BreaksStorage};
ghost use Rattle.cfb_directory.specs.Reach.{entry_place as place_of};
ghost use Rattle.cfb_directory.specs.Order.{ListsFilled};
ghost use Rattle.doc_bits.specs.Rules.{Nowhere, rule};
ghost use Rattle.cfb_directory.specs.StreamEntries.{IsStreamEntry};
ghost use Rattle.cfb_directory.specs.Entries.{AreSoundEntries, IsBody, tree_rules};
ghost use Rattle.cfb_sectors.specs.Judged.{IsCfbFault};

use crate::body::{Body, body_of};
use crate::directory::{CLSID, NAME_LEN, entry_place, reach, wrong_root};
use crate::links::{wrong_storages, wrong_tree};
use crate::names::wrong_names;
use crate::order::{list_storages, list_streams};
use cfb_sectors::{CfbFault, refuse};
use doc_bits::{Memory, get16};
use std::alloc::Global;
use std::marker::Model;

const RULE_ROOT: u8 = 7;

const RULE_TREE: u8 = 8;

const RULE_NAMES: u8 = 9;

const RULE_STORAGES: u8 = 10;

/// The directory's sectors, the entries that the root reaches, and those of the streams in the order of their names.
#[derive(Drop)]
pub struct Entries<'a> {
    file: &'a [u8],
    directory: Vec<u32>,
    reached: Vec<u32>,
    streams: Vec<u32>,
}

impl<'a> Model for Entries<'a> {
    ghost use Rattle.cfb_directory.specs.Entries.{EntryLists, entry_lists_of, AreSoundEntries};

    ghost Value = { EntryLists };

    ghost view = { λ e. entry_lists_of e.file.now e.directory.items e.reached.items e.streams.items };

    ghost invariant = { λ e. AreSoundEntries (entry_lists_of e.file.now e.directory.items e.reached.items
        e.streams.items) };
}

impl<'a> Entries<'a> {
    /// Checks the rules 7 to 9 of the directory that has these sectors.
    pub fn read(alloc: Global, file: &'a [u8], directory: Vec<u32>) -> Result<Entries<'a>, CfbFault>
        requires inside { AreSectorsOf file.now directory.items }
        requires directory_is { IsDirectory file.now directory.items }
        ensures { MatchResult result
            (λ e. (e.file ≡ file.now) × (e.directory ≡ directory.items) × AreSoundEntries e)
            (IsCfbFault (tree_rules file.now directory.items)) }
    {
        refuse(RULE_ROOT, wrong_root(file, &directory))?;
        let reached = reach(alloc, file, &directory)?;
        let tree = wrong_tree(alloc, file, &directory, &reached)?;
        refuse(RULE_TREE, tree)?;
        let names = wrong_names(alloc, file, &directory, &reached)?;
        refuse(RULE_NAMES, names)?;
        let streams = list_streams(alloc, file, &directory, &reached)?;
        Ok(Entries {
            file,
            directory,
            reached,
            streams,
        })
    }

    /// Checks rule 10.
    pub fn check_storages(&self) -> Result<(), CfbFault>
        ensures { MatchResult result
            (λ _. Nowhere (BreaksStorage self.now.file self.now.directory))
            (IsCfbFault (rule 10 (BreaksStorage self.now.file self.now.directory))) }
    {
        let wrong = wrong_storages(self.file, &self.directory, &self.reached);
        refuse(RULE_STORAGES, wrong)?;
        Ok(())
    }

    /// The entries of the storages that have something, in the order of their names.
    pub fn storages(&self, alloc: Global) -> Result<Vec<u32>, Memory>
        ensures { IfOk result (λ entries. ListsFilled self.now.file self.now.directory entries.items) }
    {
        list_storages(alloc, self.file, &self.directory, &self.reached)
    }

    /// The file.
    pub fn file(&self) -> &'a [u8]
        ensures { result.now ≡ self.now.file }
    {
        self.file
    }

    /// The directory's sectors.
    pub fn directory(&self) -> &[u32]
        ensures sectors { result.now ≡ self.now.directory }
        ensures are { AreSoundEntries self.now }
    {
        &self.directory
    }

    /// The entries that the root reaches.
    pub fn reached(&self) -> &[u32]
        ensures { result.now ≡ self.now.reached }
    {
        &self.reached
    }

    /// The entries of the streams, in the order of their names.
    pub fn streams(&self) -> &[u32]
        ensures { result.now ≡ self.now.streams }
    {
        &self.streams
    }

    /// What the stream of an entry has.
    pub fn body(&self, entry: u32) -> Body
        requires { IsStreamEntry self.now.file self.now.directory entry }
        ensures { IsBody self.now.file self.now.directory entry result }
    {
        body_of(self.file, &self.directory, entry)
    }

    /// The name of an entry that the root reaches.
    pub fn name(&self, alloc: Global, entry: u32) -> Result<Vec<u16>, Memory>
        requires { IsReachedEntry self.now.file self.now.directory entry }
        ensures { IfOk result (λ name. IsEntryName self.now.file (place_of self.now.directory entry) name.items) }
    {
        let at = entry_place(self.file, &self.directory, entry as usize);
        let name = read_name(alloc, self.file, at)?;
        Ok(name)
    }

    /// The CLSID of the root.
    pub fn clsid(&self) -> [u8; 16]
        ensures { result ≡ entry_clsid self.now.file (place_of self.now.directory 0) }
    {
        read_clsid(self.file, entry_place(self.file, &self.directory, 0))
    }
}

/// The name of the entry at an offset.
fn read_name(alloc: Global, file: &[u8], at: usize) -> Result<Vec<u16>, Memory>
    requires inside { at + 128 ≤ length file.now }
    requires len { ¬ IsWrongNameLength (entry_name_length file.now at) }
    ensures { IfOk result (λ name. IsEntryName file.now at name.items) }
{
    let count = (get16(file, at + NAME_LEN) as usize / 2).saturating_sub(1);
    let mut name = Vec::new(alloc);
    for i in 0..count {
        name.push(get16(file, at + 2 * i))?;
    }
    Ok(name)
}

/// The CLSID of the entry at an offset.
fn read_clsid(file: &[u8], at: usize) -> [u8; 16]
    requires { at + 128 ≤ length file.now }
    ensures { result ≡ entry_clsid file.now at }
{
    let mut clsid = [0u8; 16];
    clsid.copy_from_slice(&file[at + CLSID..at + CLSID + 16]);
    clsid
}
