// What a save says of the text beside the document.
use doc_bits::Bytes;
use doc_parts::Seds;

/// What the table stream has beside the document: the counts of the main text, the notes and the header texts, the
/// sections' places, the two bin tables and the Clx.
#[derive(Drop)]
pub struct TableText {
    pub counts: [u32; 3],
    pub seds: Seds,
    pub characters: Bytes,
    pub paragraphs: Bytes,
    pub clx: Bytes,
}
