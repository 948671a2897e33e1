// WordDocument and the table stream of a file, with their sectors, and the parts that the pairs name.
ghost use Rattle.std.specs.Prelude.{◌≡◌, ◌<◌, ◌≤◌, ◌^◌, MatchOption, length, option_map};
ghost use Rattle.cfb_streams.specs.Contents.{HasNoNamed};
ghost use Rattle.fib_form.specs.Fib.{fib_pair, fib_which_table, table_part};
ghost use Rattle.cfb_streams.specs.Names.{table_name};
ghost use Rattle.file_mends.specs.Streams.{AreFileStreams, HasStream, IsOfFile};
ghost use Rattle.file_mends.specs.Streams.{FileStreams as Streams};

use crate::parts::pair_offset;
use cfb_streams::{Container, equal_names, table_name, word_document};
use doc_bits::{get16, get32};
use fib_form::{EARLY_SIZE, F_WHICH_TBL_STM, FLAGS, bit_of};
use std::marker::Model;

/// [MS-DOC] FibRgFcLcb97: the number of the pair of the style sheet.
pub(crate) const STSHF: usize = 1;

/// The bytes of both streams, and the sectors of each, where it has sectors of its own.
#[derive(Drop)]
pub(crate) struct FileStreams<'a> {
    pub(crate) wd: &'a [u8],
    pub(crate) wd_sectors: Option<&'a [u32]>,
    pub(crate) table: &'a [u8],
    pub(crate) table_sectors: Option<&'a [u32]>,
}

impl<'a> Model for FileStreams<'a> {
    ghost use Rattle.std.specs.Prelude.{option_map};
    ghost use Rattle.file_mends.specs.Streams.{FileStreams};

    ghost Value = { FileStreams };

    ghost view = { λ s. record {
      wd = s.wd.now;
      wd_sectors = option_map (λ c. c.now) s.wd_sectors;
      table = s.table.now;
      table_sectors = option_map (λ c. c.now) s.table_sectors;
    } };
}

/// The bytes of a stream, and its sectors, where it has sectors of its own.
#[derive(Clone, Copy)]
pub(crate) struct NamedStream<'a> {
    pub(crate) bytes: &'a [u8],
    pub(crate) sectors: Option<&'a [u32]>,
}

/// The two streams of a file.
pub(crate) fn streams_of(container: &Container) -> Option<FileStreams<'_>>
    requires { IsOfFile container.now }
    ensures { MatchOption result
        ((streams : Streams) → ¬ AreFileStreams container.now streams)
        (AreFileStreams container.now) }
{
    let Some(wd) = named_stream(container, word_document()) else {
        return None;
    };
    if wd.bytes.len() < EARLY_SIZE {
        return None;
    }
    let Some(table) = named_stream(container, used_table(wd.bytes)) else {
        return None;
    };
    Some(FileStreams {
        wd: wd.bytes,
        wd_sectors: wd.sectors,
        table: table.bytes,
        table_sectors: table.sectors,
    })
}

/// The stream with a name.
fn named_stream<'a>(container: &'a Container, name: &[u16]) -> Option<NamedStream<'a>>
    ensures { MatchOption result
        (HasNoNamed container.now.streams name.now)
        (λ s. HasStream container.now name.now s.bytes.now (option_map (λ c. c.now) s.sectors)) }
{
    for i in 0..container.count() {
        if equal_names(container.name(i), name) {
            return Some(NamedStream {
                bytes: container.bytes(i),
                sectors: container.chain(i),
            });
        }
    }
    None
}

/// The name of the table stream that a FIB uses.
pub(crate) fn used_table(wd: &[u8]) -> &'static [u16]
    requires { 900 ≤ length wd.now }
    ensures { result.now ≡ table_name (fib_which_table wd.now) }
{
    table_name(bit_of(get16(wd, FLAGS), F_WHICH_TBL_STM) as u8)
}

/// Where the part of pair `n` begins in the table stream.
pub(crate) fn part_begin(wd: &[u8], n: usize) -> usize
    requires long { 900 ≤ length wd.now }
    requires below { n < 93 }
    ensures begin { result ≡ (fib_pair wd.now n).0 }
    ensures low { result < 2 ^ 32 }
{
    get32(wd, pair_offset(n)) as usize
}

/// The bytes of the part of pair `n`, as far as they are in the table stream.
pub(crate) fn part_bytes<'a>(wd: &[u8], table: &'a [u8], n: usize) -> &'a [u8]
    requires long { 900 ≤ length wd.now }
    requires below { n < 93 }
    ensures part { result.now ≡ table_part wd.now table.now n }
    ensures short { length result.now < 2 ^ 32 }
{
    let from = get32(wd, pair_offset(n)) as usize;
    let to = from + get32(wd, pair_offset(n) + 4) as usize;
    let end = to.min(table.len());
    &table[from.min(end)..end]
}
