// The names of the streams of a document, in units.
ghost use Rattle.std.specs.Prelude.{◌≡◌, ◌↔◌, IsTrue};
ghost use Rattle.cfb_directory.specs.Directory.{AreSameNames};
ghost use Rattle.cfb_streams.specs.Names.{wd_name, is_same_name, table_name as name_of_table};

use cfb_directory::same_name;

/// `WordDocument`
pub const WORD_DOCUMENT: [u16; 12] = [87, 111, 114, 100, 68, 111, 99, 117, 109, 101, 110, 116];

/// `0Table`
pub const TABLE_0: [u16; 6] = [48, 84, 97, 98, 108, 101];

/// `1Table`
pub const TABLE_1: [u16; 6] = [49, 84, 97, 98, 108, 101];

/// The name of the table stream: `1Table` where `which` is 1, else `0Table`.
pub fn table_name(which: u8) -> &'static [u16]
    ensures { result.now ≡ name_of_table which }
{
    if which == 1 { &TABLE_1 } else { &TABLE_0 }
}

/// The name of the stream that begins with the FIB.
pub fn word_document() -> &'static [u16]
    ensures { result.now ≡ wd_name }
{
    &WORD_DOCUMENT
}

/// Whether two names are equal. ASCII letters are compared by their upper case.
pub fn equal_names(name: &[u16], other: &[u16]) -> bool
    ensures relation { IsTrue result ↔ AreSameNames name.now other.now }
    ensures test { result ≡ is_same_name name.now other.now }
{
    same_name(name, other)
}
