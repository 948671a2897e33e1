// Lists of what the parts hold. After want of memory each is what it was.
ghost use Rattle.std.specs.Prelude.{◌≡◌, ◌<◌, List, ℕ, [], ◌∷◌};
ghost use Rattle.std.specs.Prelude.{◌++◌, length, slice_get, OnOk, OnErr};

use doc_bits::Memory;
use std::alloc::Global;
use std::marker::Model;

/// A section: the CP where it begins, and the offset of its Sepx in `WordDocument`.
#[derive(Clone, Copy)]
pub struct Sed {
    pub start: u32,
    pub sepx: u32,
}

/// A field character: its CP in the story, the unit there, and the byte of its type or flags.
#[derive(Clone, Copy)]
pub struct Fld {
    pub cp: u32,
    pub unit: u16,
    pub byte: u8,
}

/// A reference to a note: its CP in the main text, and whether the note is numbered by itself.
#[derive(Clone, Copy)]
pub struct NoteRef {
    pub cp: u32,
    pub auto: bool,
}

/// The sections of the main text.
#[derive(Drop)]
pub struct Seds {
    pub(crate) items: Vec<Sed>,
}

impl Model for Seds {
    ghost use Rattle.std.specs.Prelude.{List};
    ghost use Rattle.doc_parts.specs.declared.lists.Sed.{Sed};
    ghost use Rattle.doc_parts.specs.Sections.{HaveFileNumbers};

    ghost Value = { List Sed };

    ghost view = { λ s. s.items.items };

    ghost invariant = { λ s. HaveFileNumbers s.items.items };
}

impl Seds {
    pub fn new(alloc: Global) -> Seds
        ensures { result ≡ [] }
    {
        Seds {
            items: Vec::new(alloc),
        }
    }

    pub fn len(&self) -> usize
        ensures { result ≡ length self.now }
    {
        self.items.len()
    }

    /// The CP where a section begins, and the offset of its Sepx.
    pub fn get(&self, i: usize) -> (u32, u32)
        requires { i < length self.now }
        ensures { slice_get self.now i ≡ Some (record { start = result.0; sepx = result.1 }) }
    {
        let sed = self.items[i];
        (sed.start, sed.sepx)
    }

    pub fn add(&mut self, start: u32, sepx: u32) -> Result<(), Memory>
        ensures ok { OnOk result (self.new ≡ self.old ++ (record { start = start; sepx = sepx }) ∷ []) }
        ensures err { OnErr result (self.new ≡ self.old) }
    {
        self.items.push(Sed { start, sepx })?;
        Ok(())
    }
}

/// The field characters of a story.
#[derive(Drop)]
pub struct Flds {
    pub(crate) items: Vec<Fld>,
}

impl Model for Flds {
    ghost use Rattle.std.specs.Prelude.{List};
    ghost use Rattle.doc_parts.specs.declared.lists.Fld.{Fld};

    ghost Value = { List Fld };

    ghost view = { λ f. f.items.items };
}

impl Flds {
    pub fn new(alloc: Global) -> Flds
        ensures { result ≡ [] }
    {
        Flds {
            items: Vec::new(alloc),
        }
    }

    pub fn len(&self) -> usize
        ensures { result ≡ length self.now }
    {
        self.items.len()
    }

    /// The CP of a field character, the unit there, and its byte of type or flags.
    pub fn get(&self, i: usize) -> (u32, u16, u8)
        requires { i < length self.now }
        ensures { slice_get self.now i ≡ Some (record { cp = result.0; unit = result.1; byte = result.2 }) }
    {
        let fld = self.items[i];
        (fld.cp, fld.unit, fld.byte)
    }

    pub fn add(&mut self, cp: u32, unit: u16, byte: u8) -> Result<(), Memory>
        ensures ok { OnOk result (self.new ≡ self.old ++ (record { cp = cp; unit = unit; byte = byte }) ∷ []) }
        ensures err { OnErr result (self.new ≡ self.old) }
    {
        self.items.push(Fld { cp, unit, byte })?;
        Ok(())
    }
}

/// The references to notes.
#[derive(Drop)]
pub struct Refs {
    pub(crate) items: Vec<NoteRef>,
}

impl Model for Refs {
    ghost use Rattle.std.specs.Prelude.{List};
    ghost use Rattle.doc_parts.specs.declared.lists.NoteRef.{NoteRef};

    ghost Value = { List NoteRef };

    ghost view = { λ r. r.items.items };
}

impl Refs {
    pub fn new(alloc: Global) -> Refs
        ensures { result ≡ [] }
    {
        Refs {
            items: Vec::new(alloc),
        }
    }

    pub fn len(&self) -> usize
        ensures { result ≡ length self.now }
    {
        self.items.len()
    }

    /// The CP of a reference, and whether its note is numbered by itself.
    pub fn get(&self, i: usize) -> (u32, bool)
        requires { i < length self.now }
        ensures { slice_get self.now i ≡ Some (record { cp = result.0; auto = result.1 }) }
    {
        let reference = self.items[i];
        (reference.cp, reference.auto)
    }

    pub fn add(&mut self, cp: u32, auto: bool) -> Result<(), Memory>
        ensures ok { OnOk result (self.new ≡ self.old ++ (record { cp = cp; auto = auto }) ∷ []) }
        ensures err { OnErr result (self.new ≡ self.old) }
    {
        self.items.push(NoteRef { cp, auto })?;
        Ok(())
    }
}

/// The CPs that cut a story into its texts, all but the last.
#[derive(Drop)]
pub struct Cuts {
    pub(crate) items: Vec<u32>,
}

impl Model for Cuts {
    ghost Value = { List ℕ };

    ghost view = { λ c. c.items.items };
}

impl Cuts {
    pub fn new(alloc: Global) -> Cuts
        ensures { result ≡ [] }
    {
        Cuts {
            items: Vec::new(alloc),
        }
    }

    pub fn len(&self) -> usize
        ensures { result ≡ length self.now }
    {
        self.items.len()
    }

    pub fn get(&self, i: usize) -> u32
        requires { i < length self.now }
        ensures { slice_get self.now i ≡ Some result }
    {
        self.items[i]
    }

    pub fn add(&mut self, cp: u32) -> Result<(), Memory>
        ensures ok { OnOk result (self.new ≡ self.old ++ cp ∷ []) }
        ensures err { OnErr result (self.new ≡ self.old) }
    {
        self.items.push(cp)?;
        Ok(())
    }
}
