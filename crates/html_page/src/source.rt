// What a page is made of.
use doc_columns::ColumnDocument;
use doc_pictures::Images;

/// A document, and the files of its pictures.
#[derive(Clone, Copy)]
pub struct Source<'a> {
    pub document: &'a ColumnDocument,
    pub images: Images<'a>,
}
