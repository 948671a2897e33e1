use doc_bits::Bytes;

/// The texts of a document's summary, in bytes of the code page of the set. What is no text is missing.
#[derive(Drop)]
pub struct Fields {
    pub title: Option<Bytes>,
    pub subject: Option<Bytes>,
    pub author: Option<Bytes>,
}
