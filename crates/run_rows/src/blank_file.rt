// The file that runs begin with: the blank document, which has one item of style 0, saved in full.
use doc_bits::Bytes;
use full_save::{SaveFault, full};
use plain_doc::{blank, check};
use std::alloc::Global;

/// The full save of the blank document.
pub fn blank_file(alloc: Global) -> Result<Bytes, SaveFault> {
    let document = blank(alloc)?;
    match check(&document) {
        Ok(()) => full(alloc, &document),
        Err(_) => Err(SaveFault::Memory),
    }
}
