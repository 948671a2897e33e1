// The stream that begins with the FIB, which each file has that comes so far.
ghost use Rattle.std.specs.Prelude.{◌≡◌};
ghost use Rattle.doc_bits.specs.Rules.{Hold};
ghost use Rattle.cfb_streams.specs.Contents.{HasNamed};
ghost use Rattle.cfb_streams.specs.Names.{wd_name};
ghost use Rattle.fib_versions.specs.VersionRules.{version_rules};
ghost use Rattle.file_rules.specs.FileRules.{table_stream_name};
ghost use Rattle.doc_fit.specs.Refusals.{HasMain, HasTable};

use cfb_streams::{OuterContainer, WORD_DOCUMENT, table_name};
use fib_versions::AnyFib;

/// The stream `WordDocument`.
pub(crate) fn main_stream(outer: &OuterContainer) -> &[u8]
    requires { HasMain outer.now.container }
    ensures { HasNamed outer.now.container.streams wd_name result.now }
{
    match outer.container().stream(&WORD_DOCUMENT) {
        Some(wd) => wd,
        None => unreachable!(),
    }
}

/// The table stream that its FIB uses.
pub(crate) fn table_stream<'a>(outer: &'a OuterContainer, fib: &AnyFib<'_>) -> &'a [u8]
    requires { HasTable outer.now.container fib.now }
    ensures { HasNamed outer.now.container.streams (table_stream_name fib.now) result.now }
{
    match outer.container().stream(table_name(fib.which_table())) {
        Some(table) => table,
        None => unreachable!(),
    }
}

/// Its FIB.
pub(crate) fn fib_of(wd: &[u8]) -> AnyFib<'_>
    requires { Hold (version_rules wd.now) }
    ensures { result ≡ wd.now }
{
    match AnyFib::read(wd) {
        Ok(fib) => fib,
        Err(_) => unreachable!(),
    }
}
