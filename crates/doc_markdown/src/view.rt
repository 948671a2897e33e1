// The page of a document in Markdown.
ghost use Rattle.std.specs.Prelude.{◌≡◌, ℕ, List, OnOk, IsErrOf};
ghost use Rattle.doc_outer.specs.Counts.{Rose};
ghost use Rattle.doc_outer.specs.Written.{Appends, AppendsPrefix};
ghost use Rattle.plain_doc.specs.Sound.{IsSound};
ghost use Rattle.doc_markdown.specs.Page.{IsMarkdownPage};

use doc_columns::ColumnDocument;
use doc_html::write_form;
use doc_outer::Sink;
use doc_pictures::{Images, Pictures};
use doc_view::{Options, ViewFault};
use form_page::PageForm;
use html_page::Source;
use std::alloc::Global;

/// Writes the page of a document in Markdown, its main text and its notes. All memory is taken before the first byte. It
/// is linear in the units and the runs.
pub fn write_markdown<K: Sink>(
    alloc: Global,
    document: &ColumnDocument,
    options: Options,
    out: &mut K,
) -> Result<(), ViewFault>
    requires { IsSound document.now }
    ensures ok { OnOk result ((bytes : List ℕ) × (IsMarkdownPage options document.now bytes
        × Appends (K.written out.old) (K.written out.new) bytes)) }

    // A sink that fails has taken a prefix of the page.
    ensures prefix { IsErrOf result ViewFault.Sink → (bytes : List ℕ) × (IsMarkdownPage options document.now bytes
        × AppendsPrefix (K.written out.old) (K.written out.new) bytes) }
    ensures failed { IsErrOf result ViewFault.Sink → Rose (K.faults out.old) (K.faults out.new) }

    // Without memory nothing is written.
    ensures memory { IsErrOf result ViewFault.Memory → K.written out.new ≡ K.written out.old }
{
    let none = Pictures::none(alloc);
    let source = Source {
        document,
        images: Images {
            folder: "",
            pictures: &none,
        },
    };
    write_form(alloc, &source, PageForm::Markdown, options, out)
}
