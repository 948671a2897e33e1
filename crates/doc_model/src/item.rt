// One place of a text, with what the formatting says of it.
ghost use Rattle.std.specs.Prelude.{◌≡◌, ◌↔◌, IsTrue, IfOk};
ghost use Rattle.doc_model.specs.Settings.{same_properties};

use doc_bits::Memory;
use prop_map::PropMap;
use std::alloc::Global;

/// How a note is numbered: by itself, or by a mark that the writer chose.
#[derive(Clone, Copy, PartialEq, Eq)]
pub enum NoteKind {
    Auto,
    Custom,
}

/// What ends a paragraph: its style, and the properties that its mark has beside the style's.
#[derive(Drop)]
pub struct Mark {
    pub istd: u16,
    pub pap: PropMap,
}

impl Mark {
    /// A copy of the mark, which shares its map.
    pub fn copy(&self, alloc: Global) -> Result<Mark, Memory>
        ensures { IfOk result (λ copy. copy ≡ self.now) }
    {
        Ok(Mark {
            istd: self.istd,
            pap: self.pap.copy(alloc)?,
        })
    }

    /// Whether both are the same mark.
    pub fn equal(&self, other: &Mark) -> bool
        ensures { IsTrue result ↔ self.now ≡ other.now }
    {
        self.istd == other.istd && self.pap.equal(&other.pap)
    }
}

/// A unit of a text: its properties beside the style's, whether it ends a paragraph or a section, the
/// byte of a field character, and whether it refers to a note.
#[derive(Drop)]
pub struct Item {
    pub unit: u16,
    pub fld: Option<u8>,
    pub note: Option<NoteKind>,
    pub chp: PropMap,
    pub mark: Option<Mark>,
    pub sect: Option<PropMap>,
}

impl Item {
    /// A copy of the item, which shares its maps.
    pub fn copy(&self, alloc: Global) -> Result<Item, Memory>
        ensures { IfOk result (λ copy. copy ≡ self.now) }
    {
        let chp = self.chp.copy(alloc)?;
        let mark = copy_mark(alloc, &self.mark)?;
        let sect = copy_section(alloc, &self.sect)?;
        Ok(self.with_maps(chp, mark, sect))
    }

    /// The item with these maps.
    fn with_maps(&self, chp: PropMap, mark: Option<Mark>, sect: Option<PropMap>) -> Item
        ensures { result ≡ record self.now { chp = chp; mark = mark; sect = sect } }
    {
        Item {
            unit: self.unit,
            fld: self.fld,
            note: self.note,
            chp,
            mark,
            sect,
        }
    }

    /// Whether both are the same item.
    pub fn equal(&self, other: &Item) -> bool
        ensures { IsTrue result ↔ self.now ≡ other.now }
    {
        self.unit == other.unit
            && self.fld == other.fld
            && self.note == other.note
            && same_mark(&self.mark, &other.mark)
            && same_section(&self.sect, &other.sect)
            && self.chp.equal(&other.chp)
    }
}

/// A copy of the mark, where there is one.
pub fn copy_mark(alloc: Global, mark: &Option<Mark>) -> Result<Option<Mark>, Memory>
    ensures { IfOk result (λ copy. copy ≡ mark.now) }
{
    match mark {
        None => Ok(None),
        Some(mark) => Ok(Some(mark.copy(alloc)?)),
    }
}

/// A copy of the properties of a section, where there are some.
pub fn copy_section(alloc: Global, sect: &Option<PropMap>) -> Result<Option<PropMap>, Memory>
    ensures { IfOk result (λ copy. copy ≡ sect.now) }
{
    match sect {
        None => Ok(None),
        Some(map) => Ok(Some(map.copy(alloc)?)),
    }
}

/// Whether both are the same mark, or none.
pub fn same_mark(mark: &Option<Mark>, other: &Option<Mark>) -> bool
    ensures { IsTrue result ↔ mark.now ≡ other.now }
{
    match (mark, other) {
        (None, None) => true,
        (Some(mark), Some(other)) => mark.equal(other),
        _ => false,
    }
}

/// Whether both are the same properties of a section, or none.
pub fn same_section(sect: &Option<PropMap>, other: &Option<PropMap>) -> bool
    ensures { IsTrue result ↔ sect.now ≡ other.now }
{
    match (sect, other) {
        (None, None) => true,
        (Some(map), Some(other)) => map.equal(other),
        _ => false,
    }
}

/// Whether two maps have the same codes and values.
pub fn has_same_properties(one: &PropMap, other: &PropMap) -> bool
    ensures { result ≡ same_properties one.now other.now }
{
    one.equal(other)
}
