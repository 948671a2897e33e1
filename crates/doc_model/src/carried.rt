// What a document carries along unread.
ghost use Rattle.std.specs.Prelude.{◌≡◌, ◌↔◌, ◌<◌, [], ◌∷◌, length, slice_get, IsTrue, IfOk};
ghost use Rattle.fib_form.specs.FibFields.{IsKeptFlags};
ghost use Rattle.doc_model.specs.Carried.{ArePartsShort, AreListsWithLevels, AreCarriedStreams};

use cfb_streams::Streams;
use doc_bits::{Bytes, Memory};
use std::alloc::Global;

/// What a document carries along unread: parts of the table stream as they are, the CLSID of the
/// root, languages and flags of the FIB, and the other streams of the file.
#[derive(Drop)]
pub struct Carried {
    /// [MS-DOC] SttbfFfn, the fonts.
    pub fonts: Bytes,
    /// [MS-DOC] Dop, the properties of the document.
    pub dop: Bytes,
    /// [MS-DOC] SttbfAssoc, the associated strings.
    pub assoc: Bytes,
    /// [MS-DOC] PlfLst, the lists.
    pub lst: Bytes,
    /// [MS-DOC] the LVLs that are after PlfLst.
    pub levels: Bytes,
    /// [MS-DOC] PlfLfo, the uses of lists.
    pub lfo: Bytes,
    pub clsid: [u8; 16],
    /// [MS-DOC] FibBase.lid.
    pub lid: u16,
    /// [MS-DOC] FibRgW97.lidFE.
    pub lid_fe: u16,
    /// fDot, fReadOnlyRecommended and fFarEast, at their places in the FIB.
    pub flags: u16,
    pub streams: Streams,
    pub ghost short: { ArePartsShort (fonts ∷ dop ∷ assoc ∷ lst ∷ levels ∷ lfo ∷ []) },
    pub ghost lists: { AreListsWithLevels lst levels },
    pub ghost kept: { IsKeptFlags flags },
    pub ghost others: { AreCarriedStreams streams },
}

impl Carried {
    /// A copy of the parts and streams.
    pub fn copy(&self, alloc: Global) -> Result<Carried, Memory>
        ensures { IfOk result (λ copy. copy ≡ self.now) }
    {
        let parts = copy_parts(alloc, &self.fonts, &self.dop, &self.assoc)?;
        let lists = copy_parts(alloc, &self.lst, &self.levels, &self.lfo)?;
        let streams = copy_streams(alloc, &self.streams)?;
        Ok(self.with_parts(parts, lists, streams))
    }

    /// What is carried, with these parts in place of its own.
    fn with_parts(&self, parts: ThreeParts, lists: ThreeParts, streams: Streams) -> Carried
        requires fonts { parts.first ≡ self.now.fonts }
        requires dop { parts.second ≡ self.now.dop }
        requires assoc { parts.third ≡ self.now.assoc }
        requires lst { lists.first ≡ self.now.lst }
        requires levels { lists.second ≡ self.now.levels }
        requires lfo { lists.third ≡ self.now.lfo }
        requires streams { streams ≡ self.now.streams }

        ensures { result ≡ self.now }
    {
        let ThreeParts {
            first: fonts,
            second: dop,
            third: assoc,
        } = parts;
        let ThreeParts {
            first: lst,
            second: levels,
            third: lfo,
        } = lists;
        Carried {
            fonts,
            dop,
            assoc,
            lst,
            levels,
            lfo,
            clsid: self.clsid,
            lid: self.lid,
            lid_fe: self.lid_fe,
            flags: self.flags,
            streams,
        }
    }

    /// Whether both have the same parts, numbers and streams.
    pub fn equal(&self, other: &Carried) -> bool
        ensures { IsTrue result ↔ self.now ≡ other.now }
    {
        self.same_numbers(other)
            && self.same_parts(other)
            && same_streams(&self.streams, &other.streams)
    }

    /// Whether both have the same CLSID, languages and flags.
    fn same_numbers(&self, other: &Carried) -> bool
        ensures { IsTrue result
            ↔ (self.now.clsid ≡ other.now.clsid) × (self.now.lid ≡ other.now.lid)
            × (self.now.lid_fe ≡ other.now.lid_fe) × (self.now.flags ≡ other.now.flags) }
    {
        self.clsid == other.clsid
            && self.lid == other.lid
            && self.lid_fe == other.lid_fe
            && self.flags == other.flags
    }

    /// Whether both have the same parts of the table stream.
    fn same_parts(&self, other: &Carried) -> bool
        ensures { IsTrue result
            ↔ (self.now.fonts ≡ other.now.fonts) × (self.now.dop ≡ other.now.dop)
            × (self.now.assoc ≡ other.now.assoc) × (self.now.lst ≡ other.now.lst)
            × (self.now.levels ≡ other.now.levels) × (self.now.lfo ≡ other.now.lfo) }
    {
        same_bytes(&self.fonts, &other.fonts)
            && same_bytes(&self.dop, &other.dop)
            && same_bytes(&self.assoc, &other.assoc)
            && same_bytes(&self.lst, &other.lst)
            && same_bytes(&self.levels, &other.levels)
            && same_bytes(&self.lfo, &other.lfo)
    }
}

/// Three parts of the table stream.
#[derive(Drop)]
struct ThreeParts {
    first: Bytes,
    second: Bytes,
    third: Bytes,
}

/// Copies of three parts.
fn copy_parts(
    alloc: Global,
    first: &Bytes,
    second: &Bytes,
    third: &Bytes,
) -> Result<ThreeParts, Memory>
    ensures first { IfOk result (λ copy. copy.first ≡ first.now) }
    ensures second { IfOk result (λ copy. copy.second ≡ second.now) }
    ensures third { IfOk result (λ copy. copy.third ≡ third.now) }
{
    let first = copy_part(alloc, first)?;
    let second = copy_part(alloc, second)?;
    let third = copy_part(alloc, third)?;
    Ok(ThreeParts {
        first,
        second,
        third,
    })
}

/// A copy of the bytes.
fn copy_part(alloc: Global, part: &Bytes) -> Result<Bytes, Memory>
    ensures { IfOk result (λ copy. copy ≡ part.now) }
{
    Bytes::from_slice(alloc, part.as_slice())
}

/// Whether both are the same bytes.
fn same_bytes(part: &Bytes, other: &Bytes) -> bool
    ensures { IsTrue result ↔ part.now ≡ other.now }
{
    part.as_slice() == other.as_slice()
}

/// A copy of the streams.
fn copy_streams(alloc: Global, streams: &Streams) -> Result<Streams, Memory>
    ensures { IfOk result (λ copy. copy ≡ streams.now) }
{
    let mut copy = Streams::new(alloc);
    let count = streams.count();
    for i in 0..count {
        copy.add(streams.name(i), streams.bytes(i))?;
    }
    Ok(copy)
}

/// Whether both are the same streams.
fn same_streams(streams: &Streams, other: &Streams) -> bool
    ensures { IsTrue result ↔ streams.now ≡ other.now }
{
    let count = streams.count();
    if count != other.count() {
        return false;
    }
    for i in 0..count {
        if !same_stream(streams, other, i) {
            return false;
        }
    }
    true
}

/// Whether both have the same name and bytes at a place.
fn same_stream(streams: &Streams, other: &Streams, i: usize) -> bool
    requires there { i < length streams.now }
    requires other_there { i < length other.now }
    ensures { IsTrue result ↔ slice_get streams.now i ≡ slice_get other.now i }
{
    streams.name(i) == other.name(i) && streams.bytes(i) == other.bytes(i)
}
