// What is attached to the unit of an item.
ghost use Rattle.std.specs.Prelude.{◌≡◌};
ghost use Rattle.doc_columns.specs.Attached.{has_something, nothing};

use doc_bits::Memory;
use plain_doc::{Mark, NoteKind, copy_mark, copy_section, same_mark, same_section};
use prop_map::PropMap;
use run_lists::Shared;
use std::alloc::Global;

/// What is attached to a unit: the byte of a field character, a note that is referred to, a mark that
/// ends a paragraph, and the properties of a section that ends there. Most units have nothing.
#[derive(Drop)]
pub struct Attached {
    pub fld: Option<u8>,
    pub note: Option<NoteKind>,
    pub mark: Option<Mark>,
    pub sect: Option<PropMap>,
}

impl Attached {
    /// Nothing.
    pub fn none() -> Attached
        ensures { result ≡ nothing }
    {
        Attached {
            fld: None,
            note: None,
            mark: None,
            sect: None,
        }
    }

    /// Whether it is more than nothing.
    pub fn is_something(&self) -> bool
        ensures { result ≡ has_something self.now }
    {
        self.mark.is_some() || self.sect.is_some() || self.fld.is_some() || self.note.is_some()
    }
}

impl Shared for Attached {
    fn copy(&self, alloc: Global) -> Result<Attached, Memory> {
        Ok(Attached {
            fld: self.fld,
            note: self.note,
            mark: copy_mark(alloc, &self.mark)?,
            sect: copy_section(alloc, &self.sect)?,
        })
    }

    fn equal(&self, other: &Attached) -> bool {
        self.fld == other.fld
            && self.note == other.note
            && same_mark(&self.mark, &other.mark)
            && same_section(&self.sect, &other.sect)
    }
}
