// Lists that grow. After want of memory each is what it was.
ghost use Rattle.std.specs.Prelude.{◌≡◌, ◌≤◌, List, ℕ, [], ◌∷◌, ◌++◌, length, IfOk, OnOk, OnErr, ◌+◌, ◌<◌, replicate};
ghost use Rattle.std.specs.List.{splice};
ghost use Rattle.std.specs.String.{string_bytes};
ghost use Rattle.doc_bits.specs.Number.{number_bytes};

use crate::Memory;
use byteorder::{ByteOrder, LittleEndian};
use std::alloc::Global;
use std::marker::Model;

/// A list of bytes.
#[derive(Drop)]
pub struct Bytes {
    items: Vec<u8>,
}

impl Model for Bytes {
    ghost Value = { List ℕ };

    ghost view = { λ b. b.items.items };
}

impl Bytes {
    pub fn new(alloc: Global) -> Bytes
        ensures { result ≡ [] }
    {
        Bytes {
            items: Vec::new(alloc),
        }
    }

    /// No bytes, and room for so many.
    pub fn with_capacity(alloc: Global, room: usize) -> Result<Bytes, Memory>
        ensures { IfOk result (λ made. made ≡ []) }
    {
        let items = Vec::with_capacity(alloc, room)?;
        Ok(Bytes { items })
    }

    /// A list of these bytes.
    pub fn from_slice(alloc: Global, bytes: &[u8]) -> Result<Bytes, Memory>
        ensures { IfOk result (λ made. made ≡ bytes.now) }
    {
        let items = Vec::from_slice(alloc, bytes)?;
        Ok(Bytes { items })
    }

    pub fn push_all(&mut self, more: &[u8]) -> Result<(), Memory>
        ensures ok { OnOk result (self.new ≡ self.old ++ more.now) }
        ensures err { OnErr result (self.new ≡ self.old) }
    {
        self.items.extend_from_slice(more)?;
        Ok(())
    }

    /// Gives back the room behind the bytes.
    pub fn fit(&mut self)
        ensures { self.new ≡ self.old }
    {
        self.items.shrink_to_fit();
    }

    /// Appends the two bytes of a number, the lowest first.
    pub fn push16(&mut self, value: u16) -> Result<(), Memory>
        ensures ok { OnOk result (self.new ≡ self.old ++ number_bytes 2 value) }
        ensures err { OnErr result (self.new ≡ self.old) }
    {
        let mut two = [0u8; 2];
        LittleEndian::write_u16(&mut two, value);
        self.push_all(&two)
    }

    /// Appends the four bytes of a number, the lowest first.
    pub fn push32(&mut self, value: u32) -> Result<(), Memory>
        ensures ok { OnOk result (self.new ≡ self.old ++ number_bytes 4 value) }
        ensures err { OnErr result (self.new ≡ self.old) }
    {
        let mut four = [0u8; 4];
        LittleEndian::write_u32(&mut four, value);
        self.push_all(&four)
    }

    pub fn as_slice(&self) -> &[u8]
        ensures { result.now ≡ self.now }
    {
        &self.items
    }
}

/// A list of 16-bit text units.
#[derive(Drop)]
pub struct Units {
    items: Vec<u16>,
}

impl Model for Units {
    ghost Value = { List ℕ };

    ghost view = { λ u. u.items.items };
}

impl Units {
    pub fn new(alloc: Global) -> Units
        ensures { result ≡ [] }
    {
        Units {
            items: Vec::new(alloc),
        }
    }

    /// A list of these units.
    pub fn from_slice(alloc: Global, units: &[u16]) -> Result<Units, Memory>
        ensures { IfOk result (λ made. made ≡ units.now) }
    {
        let items = Vec::from_slice(alloc, units)?;
        Ok(Units { items })
    }

    pub fn push_all(&mut self, more: &[u16]) -> Result<(), Memory>
        ensures ok { OnOk result (self.new ≡ self.old ++ more.now) }
        ensures err { OnErr result (self.new ≡ self.old) }
    {
        self.items.extend_from_slice(more)?;
        Ok(())
    }

    pub fn as_slice(&self) -> &[u16]
        ensures { result.now ≡ self.now }
    {
        &self.items
    }
}

/// A text, seen as its bytes of UTF-8.
#[derive(Drop)]
pub struct Text {
    text: String,
}

impl Model for Text {
    ghost Value = { List ℕ };

    ghost view = { λ t. string_bytes t.text };
}

impl Text {
    pub fn new(alloc: Global) -> Text
        ensures { result ≡ [] }
    {
        Text {
            text: String::new(alloc),
        }
    }

    /// The text of a string. It takes no memory.
    pub fn from_string(text: String) -> Text
        ensures { result ≡ string_bytes text }
    {
        Text { text }
    }

    pub fn push_all(&mut self, more: &str) -> Result<(), Memory>
        ensures ok { OnOk result (self.new ≡ self.old ++ more.now) }
        ensures err { OnErr result (self.new ≡ self.old) }
    {
        self.text.push_str(more)?;
        Ok(())
    }

    pub fn as_str(&self) -> &str
        ensures { result.now ≡ self.now }
    {
        self.text.as_str()
    }
}

/// Puts `fresh` in place of the entries from `from` to before `to`. Each entry is moved once.
pub fn splice_list<T: Drop>(
    list: &mut Vec<T>,
    from: usize,
    to: usize,
    fresh: Vec<T>,
) -> Result<(), Memory>
    requires ordered { from ≤ to }
    requires within { to ≤ length list.old.items }
    ensures ok { OnOk result (list.new.items ≡ splice list.old.items from to fresh.items) }
    ensures err { OnErr result (list.new.items ≡ list.old.items) }
{
    let _ = list.splice(from..to, fresh)?;
    Ok(())
}

/// Appends zeros.
pub fn push_zeros(out: &mut Bytes, count: usize) -> Result<(), Memory>
    ensures { OnOk result (out.new ≡ out.old ++ replicate count 0) }
{
    for _turn in 0..count {
        out.push_all(&[0])?;
    }
    Ok(())
}
