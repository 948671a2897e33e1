// What of a document is shown, and how.
use doc_view::Options;

/// The form of a page.
#[derive(Clone, Copy)]
pub enum Form {
    Text,
    Html,
    Markdown,
}

/// A form of a page, what of the document is in it, and whether files that break a rule are shown.
#[derive(Clone, Copy)]
pub struct View {
    pub form: Form,
    pub options: Options,
    /// Only files that break no rule are shown.
    pub strict: bool,
}
