// What a session has of its file after a fast save, beside the pieces, which stay.
ghost use Rattle.std.specs.Prelude.{IfOk};
ghost use Rattle.fast_save.specs.Fast.{IsHeldFile, AreFastParts};

use crate::full_parts::{load, read_fib};
use crate::parts::{required_stream, section_places, text_base};
use crate::stories::ends_behind;
use cfb_streams::{Container, word_document};
use doc_bits::Memory;
use doc_columns::ColumnDocument;
use fib_form::Fib;
use save_laws::Ends;
use std::alloc::Global;

/// Where text may be added, whether marks are behind the stories, where the properties of sections are, and the FIB
/// and the streams.
#[derive(Drop)]
pub(crate) struct FastParts {
    pub(crate) base: u32,
    pub(crate) ends: Ends,
    pub(crate) places: Vec<Option<u32>>,
    pub(crate) fib: Fib,
    pub(crate) container: Container,
}

impl FastParts {
    /// Those of a file that holds the document.
    pub(crate) fn of_file(
        alloc: Global,
        document: &ColumnDocument,
        file: &[u8],
    ) -> Result<FastParts, Memory>
        requires { IsHeldFile file.now document.now }
        ensures { IfOk result (λ parts. (held : IsHeldFile file.now document.now) → AreFastParts held.holds parts) }
    {
        let container = load(alloc, file)?;
        let fib = read_fib(required_stream(&container, word_document()));
        let base = text_base(required_stream(&container, word_document()));
        let ends = ends_behind(document, &fib);
        let places = section_places(alloc, &fib, &container)?;
        Ok(FastParts {
            base,
            ends,
            places,
            fib,
            container,
        })
    }
}
