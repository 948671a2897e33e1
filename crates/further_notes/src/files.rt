// The file in which the endnotes, or the comments, of a document are its footnotes.
ghost use Rattle.std.specs.Prelude.{◌≡◌, ◌+◌, ◌++◌, ◌<◌, ◌≤◌, ◌^◌, length, All, IfOk, MatchOption};
ghost use Rattle.doc_bits.specs.Rules.{Hold};
ghost use Rattle.fib_versions.specs.VersionRules.{version_rules};
ghost use Rattle.fib_form.specs.Fib.{fib_pair_place as place_of_pair};
ghost use Rattle.further_notes.specs.NoteFiles.{story_behind as further_of, text_pair as pair_of_texts};
ghost use Rattle.further_notes.specs.NoteFiles.{field_pair as pair_of_fields, count_behind as count_behind_of};
ghost use Rattle.further_notes.specs.NoteFiles.{count_fields as counts_of, part_fields as parts_of};
ghost use Rattle.further_notes.specs.NoteFiles.{ref_field as field_of_refs, with_numbers};
ghost use Rattle.further_notes.specs.NoteFiles.{note_wd, two_streams, note_file as file_of, FitsNoteFile};
ghost use Rattle.further_notes.specs.NoteFiles.{refs_behind as behind_of};

use crate::references::refs_behind;
use cfb_layout::{LayoutFault, whole};
use cfb_streams::{Streams, WORD_DOCUMENT, table_name};
use doc_bits::{Bytes, Memory, put32};
use doc_mends::NoteStory;
use fib_form::{CCP_ATN, CCP_FTN, CCP_HDD, CCP_TEXT, RG_FC_LCB};
use fib_versions::{AnyFib, Further};
use file_mends::{PLCF_FLD_FTN, PLCF_FLD_HDR, PLCF_HDD, STTBF_BKMK};
use std::alloc::Global;

/// [MS-DOC] FibRgFcLcb97: the pairs of the parts of endnotes, of comments, of footnotes, of header texts and of
/// bookmarks.
const PLCFEND_REF: u16 = 46;

const PLCFEND_TXT: u16 = 47;

const PLCF_FLD_EDN: u16 = 48;

const PLCFAND_TXT: u16 = 5;

const PLCF_FLD_ATN: u16 = 19;

const PLCFFND_REF: usize = 2;

const PLCFFND_TXT: usize = 3;

/// The file in which the story is the footnotes, where its streams fit one.
pub(crate) fn note_file(
    alloc: Global,
    story: NoteStory,
    fib: &AnyFib<'_>,
    wd: &[u8],
    table: &[u8],
) -> Result<Option<Bytes>, Memory>
    requires same { fib.now ≡ wd.now }
    requires version { Hold (version_rules wd.now) }
    requires small { length wd.now < 2 ^ 32 }
    ensures { IfOk result (λ found. MatchOption found
        (¬ FitsNoteFile story wd.now table.now)
        (λ file. FitsNoteFile story wd.now table.now × (file ≡ file_of story wd.now table.now))) }
{
    let refs = refs_behind(alloc, story, fib, table)?;
    let longer = joined(alloc, table, refs.as_slice())?;
    if longer.len() >= 1 << 32 {
        return Ok(None);
    }
    let field = ref_field(story, fib, table, refs.as_slice());
    let changed = note_stream(alloc, story, fib, wd, field)?;
    let streams = streams_of(alloc, fib, &changed, &longer)?;
    match whole(alloc, &streams, [0; 16]) {
        Ok(file) => Ok(Some(file)),
        Err(LayoutFault::TooLarge { .. }) => Ok(None),
        Err(LayoutFault::Memory) => Err(Memory),
    }
}

/// One list of bytes behind another.
fn joined(alloc: Global, first: &[u8], more: &[u8]) -> Result<Vec<u8>, Memory>
    ensures { IfOk result (λ all. all.items ≡ first.now ++ more.now) }
{
    let mut all = Vec::from_slice(alloc, first)?;
    all.extend_from_slice(more)?;
    Ok(all)
}

/// Both streams.
fn streams_of(
    alloc: Global,
    fib: &AnyFib<'_>,
    changed: &[u8],
    table: &[u8],
) -> Result<Streams, Memory>
    requires small { length changed.now < 2 ^ 32 }
    requires table_small { length table.now < 2 ^ 32 }
    ensures { IfOk result (λ streams. streams ≡ two_streams fib.now changed.now table.now) }
{
    let mut streams = Streams::new(alloc);
    streams.add(table_name(fib.which_table()), table)?;
    streams.add(&WORD_DOCUMENT, changed)?;
    Ok(streams)
}

/// The place and the length of the references: those of the file, or those that are put behind its table stream.
fn ref_field(story: NoteStory, fib: &AnyFib<'_>, table: &[u8], refs: &[u8]) -> (u32, u32)
    requires version { Hold (version_rules fib.now) }
    requires refs { refs.now ≡ behind_of story fib.now table.now }
    requires short { length table.now + length refs.now < 2 ^ 32 }
    ensures { result ≡ field_of_refs story fib.now table.now }
{
    match story {
        NoteStory::Endnotes => fib.pair(PLCFEND_REF),
        NoteStory::Comments => (table.len() as u32, refs.len() as u32),
    }
}

/// `WordDocument` with the numbers of the FIB of that file.
fn note_stream(
    alloc: Global,
    story: NoteStory,
    fib: &AnyFib<'_>,
    wd: &[u8],
    refs: (u32, u32),
) -> Result<Vec<u8>, Memory>
    requires same { fib.now ≡ wd.now }
    requires version { Hold (version_rules wd.now) }
    ensures bytes { IfOk result (λ copy. copy.items ≡ note_wd story wd.now refs) }
    ensures len { IfOk result (λ copy. length copy.items ≡ length wd.now) }
{
    let mut copy = Vec::from_slice(alloc, wd)?;
    put_fields(story, fib, &mut copy, refs);
    Ok(copy)
}

/// Writes these numbers into a copy of the stream.
fn put_fields(story: NoteStory, fib: &AnyFib<'_>, bytes: &mut [u8], refs: (u32, u32))
    requires same { fib.now ≡ bytes.old }
    requires version { Hold (version_rules bytes.old) }
    ensures bytes { bytes.new ≡ note_wd story bytes.old refs }
    ensures len { length bytes.new ≡ length bytes.old }
{
    put_numbers(bytes, &count_fields(story, fib));
    put_numbers(bytes, &part_fields(story, fib, refs));
}

/// The counts of characters: each by its place.
fn count_fields(story: NoteStory, fib: &AnyFib<'_>) -> [(usize, u32); 5]
    ensures { result ≡ counts_of story fib.now }
{
    let further = further_story(story);
    [
        (CCP_TEXT, fib.further_start(further)),
        (CCP_FTN, fib.further(further)),
        (CCP_HDD, 0),
        (CCP_ATN, 0),
        (CCP_ATN + 4, count_behind(story, fib)),
    ]
}

/// The story behind the header texts.
pub(crate) fn further_story(story: NoteStory) -> Further
    ensures { result ≡ further_of story }
{
    match story {
        NoteStory::Endnotes => Further::Endnotes,
        NoteStory::Comments => Further::Comments,
    }
}

/// How many characters of endnotes are behind it.
fn count_behind(story: NoteStory, fib: &AnyFib<'_>) -> u32
    ensures { result ≡ count_behind_of story fib.now }
{
    match story {
        NoteStory::Endnotes => 0,
        NoteStory::Comments => fib.further(Further::Endnotes),
    }
}

/// The places and lengths of parts: each by its place.
fn part_fields(story: NoteStory, fib: &AnyFib<'_>, refs: (u32, u32)) -> [(usize, u32); 9]
    requires { Hold (version_rules fib.now) }
    ensures { result ≡ parts_of story fib.now refs }
{
    let texts = fib.pair(text_pair(story));
    let fields = fib.pair(field_pair(story));
    [
        (pair_place(PLCFFND_REF), refs.0),
        (pair_place(PLCFFND_REF) + 4, refs.1),
        (pair_place(PLCFFND_TXT), texts.0),
        (pair_place(PLCFFND_TXT) + 4, texts.1),
        (pair_place(PLCF_FLD_FTN), fields.0),
        (pair_place(PLCF_FLD_FTN) + 4, fields.1),
        (pair_place(PLCF_HDD) + 4, 0),
        (pair_place(PLCF_FLD_HDR) + 4, 0),
        (pair_place(STTBF_BKMK) + 4, 0),
    ]
}

/// The pair of the CPs of its texts.
fn text_pair(story: NoteStory) -> u16
    ensures pair { result ≡ pair_of_texts story }
    ensures few { result ≤ 48 }
{
    match story {
        NoteStory::Endnotes => PLCFEND_TXT,
        NoteStory::Comments => PLCFAND_TXT,
    }
}

/// The pair of their fields.
fn field_pair(story: NoteStory) -> u16
    ensures pair { result ≡ pair_of_fields story }
    ensures few { result ≤ 48 }
{
    match story {
        NoteStory::Endnotes => PLCF_FLD_EDN,
        NoteStory::Comments => PLCF_FLD_ATN,
    }
}

/// Where a pair of the FIB is.
fn pair_place(n: usize) -> usize
    requires { n < 93 }
    ensures { result ≡ place_of_pair n }
{
    RG_FC_LCB + 8 * n
}

/// Writes numbers at their places, which are in the first 900 bytes.
fn put_numbers(bytes: &mut [u8], fields: &[(usize, u32)])
    requires long { 900 ≤ length bytes.old }
    requires places { All (λ field. field.0 + 4 ≤ 900) fields.now }
    ensures bytes { bytes.new ≡ with_numbers fields.now bytes.old }
    ensures len { length bytes.new ≡ length bytes.old }
{
    for k in 0..fields.len() {
        let (place, number) = fields[k];
        put32(bytes, place, number);
    }
}
