// One pass over the streams: it takes their sectors, and reads them.
ghost use Rattle.std.specs.Prelude.{◌≡◌, ℕ, ◌+◌, ◌*◌, ◌<◌, ◌≤◌, None, length};
ghost use Rattle.std.specs.Prelude.{IfOk, OnOk, MatchOption, MatchResult};
ghost use Rattle.doc_bits.specs.Rules.{Hold, Nowhere, LeastOrNone, rule};
ghost use Rattle.cfb_sectors.specs.Chain.{BreaksChain};
ghost use Rattle.cfb_directory.specs.Directory.{IsEntryName};
ghost use Rattle.cfb_directory.specs.Reach.{entry_place as place_of};
ghost use Rattle.cfb_directory.specs.StreamEntries.{IsStreamEntry, IsSmallStream, IsLargeStream, stream_head};
ghost use Rattle.cfb_streams.specs.StreamRules.{IsWrongStream, BreaksStream, BreaksSharing};
ghost use Rattle.cfb_sectors.specs.Claims.{IsUnshared, IsClosedClaim};
ghost use Rattle.cfb_sectors.specs.Tables.{table_at};
ghost use Rattle.cfb_streams.specs.Layout.{IsSoundLayout};
ghost use Rattle.cfb_streams.specs.Gathered.{places_rules};
ghost use Rattle.cfb_streams.specs.Gathered.{IsRead, TakesChain, TakesStream, HasMarks};
ghost use Rattle.cfb_streams.specs.Gathered.{AreUnshared, with_some, IsTakenFront};
ghost use Rattle.cfb_streams.specs.Container.{HasContents, IsOuterOf, IsStreamOf, AreStreamsOf};
ghost use Rattle.cfb_sectors.specs.Judged.{IsCfbFault};
ghost use Rattle.cfb_sectors.specs.Header.{sector_len, mini_sector_len};

use crate::CfbFault;
use crate::container::Container;
use crate::layout::Layout;
use crate::outer::OuterContainer;
use crate::root_stream::RootStream;
use cfb_directory::Body;
use cfb_sectors::{Claim, Claims, SECTOR_LEN, Table, join, refuse};
use doc_bits::{Memory, lesser};
use std::alloc::Global;

const RULE_STREAM_CHAIN: u8 = 13;

const RULE_SHARING: u8 = 14;

/// The sectors and the mini sectors that are taken.
#[derive(Drop)]
pub struct Taken {
    pub sectors: Claims,
    pub minis: Claims,
}

impl<'a> Layout<'a> {
    /// The place at which the chain of the stream of an entry is broken.
    fn wrong_stream(&mut self, alloc: Global, entry: u32) -> Result<Option<u32>, Memory>
        requires { IsStreamEntry self.old.file self.old.parts.directory entry }
        ensures least { IfOk result (LeastOrNone
            (IsWrongStream self.old.file self.old.parts.directory self.old.parts.mini_fat entry)) }
        ensures kept { self.new ≡ self.old }
    {
        match self.entries.body(entry) {
            Body::Empty => Ok(None),
            Body::Short(claim) => {
                let wrong = self.mini.broken_at(alloc, &claim)?;
                Ok(wrong)
            }
            Body::Long(claim) => {
                let wrong = self.fat.broken_at(alloc, &claim)?;
                Ok(wrong)
            }
        }
    }

    /// Checks rule 13.
    pub(crate) fn check_streams(&mut self, alloc: Global) -> Result<(), CfbFault>
        ensures judged { MatchResult result
            (λ _. Nowhere (BreaksStream self.old.file self.old.parts.directory self.old.parts.mini_fat))
            (IsCfbFault (rule 13 (BreaksStream self.old.file self.old.parts.directory self.old.parts.mini_fat))) }
        ensures kept { self.new ≡ self.old }
    {
        let mut least = None;
        for i in 0..self.stream_count() {
            let wrong = self.wrong_stream(alloc, self.stream_entry(i))?;
            least = lesser(least, wrong);
        }
        refuse(RULE_STREAM_CHAIN, least)
    }

    /// Checks the rules 13 and 14, and reads the streams.
    pub(crate) fn contents(&mut self, alloc: Global) -> Result<Container, CfbFault>
        ensures judged { MatchResult result
            (λ c. Hold (places_rules self.old) × HasContents self.old.file c)
            (IsCfbFault (places_rules self.old)) }
        ensures kept { self.new ≡ self.old }
    {
        self.check_streams(alloc)?;
        let container = self.gather(alloc)?;
        Ok(container)
    }

    /// Reads the streams, and the names of the storages that have something.
    pub(crate) fn outer_contents(&mut self, alloc: Global) -> Result<OuterContainer, CfbFault>
        ensures { MatchResult result
            (λ o. Hold (places_rules self.old) × IsOuterOf self.old.file o)
            (IsCfbFault (places_rules self.old)) }
    {
        let container = self.contents(alloc)?;
        let storages = self.storages(alloc)?;
        Ok(OuterContainer {
            container,
            storages,
        })
    }

    /// The sectors of the directory, of the mini FAT and of the mini stream, taken.
    fn take_parts(&self, alloc: Global) -> Result<Taken, Memory>
        ensures { IfOk result (IsTakenFront self.now 0) }
    {
        let mut sectors = Claims::new(alloc, self.fat.valid())?;
        let minis = Claims::new(alloc, self.mini.valid())?;
        sectors.claim(self.entries.directory());
        sectors.claim(self.mini.sectors());
        sectors.claim(&self.mini_stream);
        Ok(Taken { sectors, minis })
    }

    /// Takes the sectors of the stream of an entry, and reads it, where none of them was taken.
    fn read_stream(
        &self,
        alloc: Global,
        taken: &mut Taken,
        entry: u32,
    ) -> Result<Option<RootStream>, Memory>
        requires is_entry { IsStreamEntry self.now.file self.now.parts.directory entry }
        requires is_whole { Nowhere
            (IsWrongStream self.now.file self.now.parts.directory self.now.parts.mini_fat entry) }
        requires marks { HasMarks self.now taken.old }
        ensures stream { IfOk result (λ stream. MatchOption stream
            (¬ AreUnshared taken.new)
            (IsStreamOf self.now.file self.now.parts entry)) }
        ensures takes { IfOk result (λ _. TakesStream self.now entry taken.old taken.new) }
        ensures marks { IfOk result (λ _. HasMarks self.now taken.new) }
    {
        let name = self.entries.name(alloc, entry)?;
        match self.entries.body(entry) {
            Body::Empty => Ok(Some(RootStream {
                name,
                bytes: Vec::new(alloc),
                chain: None,
            })),
            Body::Short(claim) => {
                let stream = self.read_short(alloc, taken, entry, name, &claim)?;
                Ok(stream)
            }
            Body::Long(claim) => {
                let stream = self.read_long(alloc, taken, entry, name, &claim)?;
                Ok(stream)
            }
        }
    }

    /// Takes the mini sectors of the stream of an entry, and reads it where none of them was taken.
    fn read_short(
        &self,
        alloc: Global,
        taken: &mut Taken,
        entry: u32,
        name: Vec<u16>,
        claim: &Claim,
    ) -> Result<Option<RootStream>, Memory>
        requires is_small { IsSmallStream self.now.file self.now.parts.directory entry }
        requires is_claim { claim.now
            ≡ stream_head self.now.file mini_sector_len (place_of self.now.parts.directory entry) }
        requires is_name { IsEntryName self.now.file (place_of self.now.parts.directory entry) name.items }
        requires is_whole { Nowhere
            (IsWrongStream self.now.file self.now.parts.directory self.now.parts.mini_fat entry) }
        requires marks { HasMarks self.now taken.old }
        ensures stream { IfOk result (λ stream. MatchOption stream
            (¬ AreUnshared taken.new)
            (IsStreamOf self.now.file self.now.parts entry)) }
        ensures takes { IfOk result (λ _. TakesStream self.now entry taken.old taken.new) }
        ensures marks { IfOk result (λ _. HasMarks self.now taken.new) }
    {
        let minis = &mut taken.minis;
        let read = read_chain(alloc, &self.mini, minis, &self.stored, 0, claim)?;
        let Some(read) = read else {
            return Ok(None);
        };
        Ok(Some(RootStream {
            name,
            bytes: read.bytes,
            chain: None,
        }))
    }

    /// Takes the sectors of the stream of an entry, and reads it where none of them was taken.
    fn read_long(
        &self,
        alloc: Global,
        taken: &mut Taken,
        entry: u32,
        name: Vec<u16>,
        claim: &Claim,
    ) -> Result<Option<RootStream>, Memory>
        requires is_large { IsLargeStream self.now.file self.now.parts.directory entry }
        requires is_claim { claim.now
            ≡ stream_head self.now.file sector_len (place_of self.now.parts.directory entry) }
        requires is_name { IsEntryName self.now.file (place_of self.now.parts.directory entry) name.items }
        requires is_whole { Nowhere
            (IsWrongStream self.now.file self.now.parts.directory self.now.parts.mini_fat entry) }
        requires marks { HasMarks self.now taken.old }
        ensures stream { IfOk result (λ stream. MatchOption stream
            (¬ AreUnshared taken.new)
            (IsStreamOf self.now.file self.now.parts entry)) }
        ensures takes { IfOk result (λ _. TakesStream self.now entry taken.old taken.new) }
        ensures marks { IfOk result (λ _. HasMarks self.now taken.new) }
    {
        let file = self.entries.file();
        let sectors = &mut taken.sectors;
        let read = read_chain(alloc, &self.fat, sectors, file, SECTOR_LEN, claim)?;
        let Some(read) = read else {
            return Ok(None);
        };
        Ok(Some(RootStream {
            name,
            bytes: read.bytes,
            chain: Some(read.sectors),
        }))
    }

    /// Takes the sectors of the root's streams, and reads them in the order of their names.
    fn read_all(&self, alloc: Global, taken: &mut Taken) -> Result<Vec<RootStream>, Memory>
        requires is_whole { Nowhere (BreaksStream self.now.file self.now.parts.directory self.now.parts.mini_fat) }
        requires front { IsTakenFront self.now 0 taken.old }
        ensures streams { IfOk result (λ streams. AreUnshared taken.new
            → AreStreamsOf self.now.file self.now.parts self.now.streams (length self.now.streams) streams.items) }
        ensures all { IfOk result (λ _. IsTakenFront self.now (length self.now.streams) taken.new) }
        ensures is_layout { IsSoundLayout self.now }
    {
        let mut streams = Vec::new(alloc);
        for i in 0..self.stream_count() {
            let stream = self.read_stream(alloc, taken, self.stream_entry(i))?;
            push_some(&mut streams, stream)?;
        }
        Ok(streams)
    }

    /// Takes the sectors of the FAT, after all chains, and answers the least place of a sector that is shared.
    fn wrong_sharing(&self, taken: &mut Taken) -> Option<u32>
        requires { IsTakenFront self.now (length self.now.streams) taken.old }
        ensures least { LeastOrNone (BreaksSharing self.now.file self.now.parts) result }
        ensures none { result ≡ None → AreUnshared taken.old }
    {
        taken.sectors.claim(self.fat.sectors());
        lesser(
            taken.sectors.least(&self.fat),
            taken.minis.least(&self.mini),
        )
    }

    /// Checks rule 14, and reads the streams.
    pub(crate) fn gather(&self, alloc: Global) -> Result<Container, CfbFault>
        requires { Nowhere (BreaksStream self.now.file self.now.parts.directory self.now.parts.mini_fat) }
        ensures { MatchResult result
            (λ c. Nowhere (BreaksSharing self.now.file self.now.parts) × HasContents self.now.file c)
            (IsCfbFault (rule 14 (BreaksSharing self.now.file self.now.parts))) }
    {
        let mut taken = self.take_parts(alloc)?;
        let streams = self.read_all(alloc, &mut taken)?;
        refuse(RULE_SHARING, self.wrong_sharing(&mut taken))?;
        let clsid = self.entries.clsid();
        Ok(Container { streams, clsid })
    }
}

/// The bytes of a stream, and its sectors.
#[derive(Drop)]
struct ReadChain {
    bytes: Vec<u8>,
    sectors: Vec<u32>,
}

/// Puts a stream last, where it is there.
fn push_some(streams: &mut Vec<RootStream>, stream: Option<RootStream>) -> Result<(), Memory>
    ensures { OnOk result (streams.new.items ≡ with_some streams.old.items stream) }
{
    if let Some(stream) = stream {
        streams.push(stream)?;
    }
    Ok(())
}

/// Takes the sectors of a chain, and reads its bytes where none of them was taken: sector 0 of the table is at
/// `base` of `stored`.
fn read_chain(
    alloc: Global,
    table: &Table<'_>,
    claims: &mut Claims,
    stored: &[u8],
    base: usize,
    claim: &Claim,
) -> Result<Option<ReadChain>, Memory>
    requires is_whole { Nowhere (BreaksChain (table_at table.now) claim.now) }
    requires marks { length claims.old.taken ≡ table.now.valid }
    requires closed { IsClosedClaim (table_at table.now) claims.old }
    requires inside { (s : ℕ) → s < table.now.valid
        → base + s * claim.now.unit + claim.now.unit ≤ length stored.now }
    ensures read { IfOk result (λ read. MatchOption read
        (¬ IsUnshared claims.new)
        (λ r. IsRead (table_at table.now) claim.now base stored.now r.bytes.items r.sectors.items)) }
    ensures takes { IfOk result (λ _. TakesChain (table_at table.now) claim.now claims.old claims.new) }
    ensures marks { length claims.new.taken ≡ length claims.old.taken }
{
    let walked = claims.claim_chain(alloc, table, claim.start)?;
    if (walked.next as usize) < table.valid() {
        return Ok(None);
    }
    let sectors = walked.path;
    let size = claim.size as usize;
    let bytes = join(alloc, stored, base, claim.unit as usize, &sectors, size)?;
    Ok(Some(ReadChain { bytes, sectors }))
}
