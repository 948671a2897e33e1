// Where the parts of a file are that breaks none of the rules 1 to 12, but maybe rule 10.
ghost use Rattle.std.specs.Prelude.{◌≡◌, ◌<◌, MatchResult, IfOk, length, slice_index};
ghost use Rattle.doc_bits.specs.Rules.{Hold, Nowhere, ◌then◌};
ghost use Rattle.cfb_sectors.specs.Opening.{opening_rules};
ghost use Rattle.cfb_sectors.specs.HeaderRules.{header_rules};
ghost use Rattle.cfb_sectors.specs.Tables.{fat_place};
ghost use Rattle.cfb_directory.specs.Entries.{AreSoundEntries};
ghost use Rattle.cfb_directory.specs.Reach.{BreaksStorage};
ghost use Rattle.cfb_streams.specs.FoundParts.{found_rules};
ghost use Rattle.cfb_streams.specs.Layout.{IsSoundLayout, IsLayoutOf, layout_places_of};
ghost use Rattle.cfb_streams.specs.Container.{container_rules, outer_rules, chain_rules};
ghost use Rattle.cfb_streams.specs.Container.{AreNamesOf, ListsStorages};
ghost use Rattle.cfb_directory.specs.Order.{ListsFilled};
ghost use Rattle.cfb_sectors.specs.Judged.{IsCfbFault};

use crate::CfbFault;
use crate::parts::{find_directory, find_mini_fat, find_mini_stream, mini_sectors};
use cfb_directory::Entries;
use cfb_sectors::{Table, check_header, check_opening, read_fat, read_sectors, whole};
use doc_bits::{Memory, Units};
use std::alloc::Global;
use std::marker::Model;

const RULE_DIRECTORY: u8 = 6;

const RULE_MINI_FAT: u8 = 11;

const RULE_MINI_STREAM: u8 = 12;

/// Checks the rules 1 to 5.
fn check_front(file: &[u8]) -> Result<(), CfbFault>
    ensures { MatchResult result
        (λ _. Hold (opening_rules file.now) × Hold (header_rules file.now))
        (IsCfbFault (opening_rules file.now then header_rules file.now)) }
{
    if let Some(broken) = check_opening(file) {
        return Err(CfbFault::from(broken));
    }
    if let Some(broken) = check_header(file) {
        return Err(CfbFault::from(broken));
    }
    Ok(())
}

/// Checks the rules 6 to 9.
fn check_entries<'a>(
    alloc: Global,
    file: &'a [u8],
    fat: &mut Table<'_>,
) -> Result<Entries<'a>, CfbFault>
    requires opening { Hold (opening_rules file.now) }
    requires is_fat { fat.old ≡ fat_place file.now }
    ensures judged { MatchResult result
        (λ entries. (entries.file ≡ file.now) × AreSoundEntries entries)
        (IsCfbFault (found_rules file.now)) }
    ensures kept { fat.new ≡ fat.old }
{
    let directory = whole(RULE_DIRECTORY, find_directory(alloc, file, fat)?)?;
    let entries = Entries::read(alloc, file, directory)?;
    Ok(entries)
}

/// The names of some storages.
fn names_of(alloc: Global, entries: &Entries<'_>, listed: &[u32]) -> Result<Vec<Units>, Memory>
    requires { ListsFilled entries.now.file entries.now.directory listed.now }
    ensures { IfOk result
        (λ n. AreNamesOf entries.now.file entries.now.directory listed.now (length listed.now) n.items) }
{
    let mut names = Vec::new(alloc);
    for entry in listed {
        let name = entries.name(alloc, *entry)?;
        let units = Units::from_slice(alloc, &name)?;
        names.push(units)?;
    }
    Ok(names)
}

/// The entries of a file, its FAT, its mini FAT, and its mini stream: by its sectors, and by the bytes of these.
#[derive(Drop)]
pub struct Layout<'a> {
    pub(crate) entries: Entries<'a>,
    pub(crate) fat: Table<'a>,
    pub(crate) mini: Table<'a>,
    pub(crate) mini_stream: Vec<u32>,
    pub(crate) stored: Vec<u8>,
}

impl<'a> Model for Layout<'a> {
    ghost use Rattle.cfb_streams.specs.Layout.{LayoutPlaces, layout_places_of, KeepsLayout};

    ghost Value = { LayoutPlaces };

    ghost view = { λ l. layout_places_of l.entries l.mini.sectors l.mini_stream.items };

    ghost invariant = { λ l. KeepsLayout l.entries l.fat l.mini l.mini_stream.items l.stored.items };
}

impl<'a> Layout<'a> {
    /// Checks the rules 1 to 12.
    pub(crate) fn check(alloc: Global, file: &'a [u8]) -> Result<Layout<'a>, CfbFault>
        ensures { MatchResult result
            (λ l. (l.file ≡ file.now) × (IsSoundLayout l × Nowhere (BreaksStorage l.file l.parts.directory)))
            (IsCfbFault (container_rules file.now)) }
    {
        check_front(file)?;
        let mut fat = read_fat(alloc, file)?;
        let entries = check_entries(alloc, file, &mut fat)?;
        entries.check_storages()?;
        let layout = Layout::of(alloc, entries, fat)?;
        Ok(layout)
    }

    /// Checks the rules 1 to 9, 11 and 12: storages may have something.
    pub(crate) fn check_outer(alloc: Global, file: &'a [u8]) -> Result<Layout<'a>, CfbFault>
        ensures { MatchResult result
            (λ layout. (layout.file ≡ file.now) × IsSoundLayout layout)
            (IsCfbFault (outer_rules file.now)) }
    {
        check_front(file)?;
        let mut fat = read_fat(alloc, file)?;
        let entries = check_entries(alloc, file, &mut fat)?;
        let layout = Layout::of(alloc, entries, fat)?;
        Ok(layout)
    }

    /// Checks the rules 11 and 12 of a file that has these entries and this FAT.
    fn of(alloc: Global, entries: Entries<'a>, mut fat: Table<'a>) -> Result<Layout<'a>, CfbFault>
        requires opening { Hold (opening_rules entries.file) }
        requires header { Hold (header_rules entries.file) }
        requires are_entries { AreSoundEntries entries }
        requires is_fat { fat ≡ fat_place entries.file }
        ensures { MatchResult result
            (IsLayoutOf entries.entry)
            (IsCfbFault (chain_rules entries.entry.file entries.entry.directory)) }
    {
        let file = entries.file();
        let mini_fat = whole(RULE_MINI_FAT, find_mini_fat(alloc, file, &mut fat)?)?;
        let found = find_mini_stream(alloc, file, entries.directory(), &mut fat)?;
        let mini_stream = whole(RULE_MINI_STREAM, found)?;
        let layout = Layout::read(alloc, entries, fat, mini_fat, mini_stream)?;
        Ok(layout)
    }

    /// Reads the mini FAT, which has these sectors, and the mini stream.
    fn read(
        alloc: Global,
        entries: Entries<'a>,
        fat: Table<'a>,
        mini_fat: Vec<u32>,
        mini_stream: Vec<u32>,
    ) -> Result<Layout<'a>, Memory>
        requires is_layout { IsSoundLayout (layout_places_of entries mini_fat.items mini_stream.items) }
        requires is_fat { fat ≡ fat_place entries.file }
        ensures { IfOk result (λ layout. layout ≡ layout_places_of entries.entry mini_fat.items mini_stream.items) }
    {
        let file = entries.file();
        let valid = mini_sectors(file, entries.directory(), &mini_fat);
        let mini = Table::read(alloc, file, mini_fat, valid)?;
        let stored = read_sectors(alloc, file, &mini_stream)?;
        Ok(Layout {
            entries,
            fat,
            mini,
            mini_stream,
            stored,
        })
    }
}

impl<'a> Layout<'a> {
    /// The directory's sectors.
    pub fn directory(&self) -> &[u32]
        ensures sectors { result.now ≡ self.now.parts.directory }
        ensures is_layout { IsSoundLayout self.now }
    {
        self.entries.directory()
    }

    /// The numbers of the entries that the root reaches, each of them once.
    pub fn reached(&self) -> &[u32]
        ensures { result.now ≡ self.now.reached }
    {
        self.entries.reached()
    }

    /// The numbers of the entries of the streams, in the order of their names.
    pub fn streams(&self) -> &[u32]
        ensures { result.now ≡ self.now.streams }
    {
        self.entries.streams()
    }

    /// The mini FAT's sectors.
    pub fn mini_fat(&self) -> &[u32]
        ensures { result.now ≡ self.now.parts.mini_fat }
    {
        self.mini.sectors()
    }

    /// The mini stream's sectors.
    pub fn mini_stream(&self) -> &[u32]
        ensures { result.now ≡ self.now.parts.mini_stream }
    {
        &self.mini_stream
    }

    /// The names of the storages that have something, in their order.
    pub(crate) fn storages(&self, alloc: Global) -> Result<Vec<Units>, Memory>
        ensures { IfOk result (λ names. ListsStorages self.now.file names.items) }
    {
        let listed = self.entries.storages(alloc)?;
        let names = names_of(alloc, &self.entries, &listed)?;
        Ok(names)
    }

    /// The number of the root's streams.
    pub(crate) fn stream_count(&self) -> usize
        ensures len { result ≡ length self.now.streams }
        ensures is_layout { IsSoundLayout self.now }
    {
        self.entries.streams().len()
    }

    /// The entry of a stream.
    pub(crate) fn stream_entry(&self, i: usize) -> u32
        requires { i < length self.now.streams }
        ensures { result ≡ slice_index self.now.streams i }
    {
        self.entries.streams()[i]
    }
}

/// The layout of a file that breaks none of the rules 1 to 14.
pub fn layout_of<'a>(alloc: Global, file: &'a [u8]) -> Result<Layout<'a>, Memory>
    requires { Hold (container_rules file.now) }
    ensures { IfOk result (λ layout. (layout.file ≡ file.now) × IsSoundLayout layout) }
{
    match Layout::check(alloc, file) {
        Ok(layout) => Ok(layout),
        Err(CfbFault::Rule { .. }) => unreachable!(),
        Err(CfbFault::Memory) => Err(Memory),
    }
}
