// What a save finds in the file that is there.
ghost use Rattle.std.specs.Prelude.{◌≡◌, ◌+◌};
ghost use Rattle.cfb_streams.specs.Names.{table_name as name_of_table};
ghost use Rattle.fast_save_layout.specs.RenewedStreams.{bytes_named as bytes_of_stream};
ghost use Rattle.fast_save_layout.specs.OldParts.{StaysWithin, named_part};

use crate::saving::SavedFile;
use cfb_streams::{Container, equal_names, table_name};
use fib_form::{Fib, TablePart};

/// The bytes of the first stream with a name; none where there is no such stream.
pub(crate) fn bytes_named<'a>(container: &'a Container, name: &[u16]) -> &'a [u8]
    ensures { result.now ≡ bytes_of_stream container.now.streams name.now }
{
    for i in 0..container.count() {
        if equal_names(container.name(i), name) {
            return container.bytes(i);
        }
    }
    &[]
}

/// A part of the table stream that is there.
pub(crate) fn old_part<'a>(old: &SavedFile<'a>, part: TablePart) -> &'a [u8]
    requires { StaysWithin old.now.fib.now
        (bytes_of_stream old.now.container.now.streams (name_of_table old.now.fib.now.which_table)) part }
    ensures { result.now ≡ named_part old.now.fib.now
        (bytes_of_stream old.now.container.now.streams (name_of_table old.now.fib.now.which_table)) part }
{
    let table = bytes_named(old.container, table_name(old.fib.which_table()));
    part_of(table, old.fib, part)
}

/// The part of a table stream that a pair of the FIB names.
fn part_of<'a>(table: &'a [u8], fib: &Fib, part: TablePart) -> &'a [u8]
    requires { StaysWithin fib.now table.now part }
    ensures { result.now ≡ named_part fib.now table.now part }
{
    let (fc, lcb) = fib.pair(part.pair());
    &table[fc as usize..fc as usize + lcb as usize]
}
