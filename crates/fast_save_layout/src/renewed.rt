// The streams of a container, of which two have new bytes.
ghost use Rattle.std.specs.Prelude.{◌≡◌, IfOk};
ghost use Rattle.cfb_streams.specs.Contents.{AreStreams};
ghost use Rattle.fast_save_layout.specs.RenewedStreams.{renewed_streams as streams_renewed};

use cfb_streams::{Container, Streams, WORD_DOCUMENT, equal_names};
use doc_bits::Memory;
use std::alloc::Global;

/// The streams of a container, where `WordDocument` and the table stream have new bytes. Each keeps its name as it is
/// spelt.
pub(crate) fn renewed_streams(
    alloc: Global,
    container: &Container,
    name: &[u16],
    wd: &[u8],
    table: &[u8],
) -> Result<Streams, Memory>
    requires { AreStreams (streams_renewed name.now wd.now table.now container.now.streams) }
    ensures { IfOk result (λ streams. streams ≡ streams_renewed name.now wd.now table.now container.now.streams) }
{
    let mut streams = Streams::new(alloc);
    for i in 0..container.count() {
        let own = container.name(i);
        let bytes = if equal_names(own, &WORD_DOCUMENT) {
            wd
        } else if equal_names(own, name) {
            table
        } else {
            container.bytes(i)
        };
        streams.add(own, bytes)?;
    }
    Ok(streams)
}
