// Streams that are to be put into a container: names and bytes, in the order of the names.
ghost use Rattle.std.specs.Prelude.{◌≡◌, [], ◌∷◌, ◌++◌, ◌<◌, OnOk, OnErr, option_map, length, slice_get};
ghost use Rattle.std.specs.Prelude.{◌↔◌, IsTrue, ◌-◌};
ghost use Rattle.std.specs.List.{sum_by};
ghost use Rattle.cfb_directory.specs.Directory.{IsNameBefore};
ghost use Rattle.cfb_streams.specs.Contents.{AreStreams, AreStored, IsAfterLastName};

use cfb_directory::upper;
use doc_bits::Memory;
use std::alloc::Global;
use std::marker::Model;

/// A name and bytes.
#[derive(Drop)]
struct NamedStream {
    name: Vec<u16>,
    bytes: Vec<u8>,
}

impl Model for NamedStream {
    ghost use Rattle.cfb_streams.specs.Contents.{NamedBytes};

    ghost Value = { NamedBytes };

    ghost view = { λ s. record { name = s.name.items; bytes = s.bytes.items } };
}

impl NamedStream {
    /// Its name.
    fn name(&self) -> &[u16]
        ensures { result.now ≡ self.now.name }
    {
        &self.name
    }

    /// Its bytes.
    fn bytes(&self) -> &[u8]
        ensures { result.now ≡ self.now.bytes }
    {
        &self.bytes
    }
}

/// The least and the greatest number of units of a name.
const MIN_NAME_UNITS: usize = 1;

const MAX_NAME_UNITS: usize = 31;

/// The streams of a list have fewer bytes in all.
const MAX_TOTAL: usize = 1 << 48;

/// Whether a name comes before another one: it is shorter, or as long and the lesser in upper case.
pub fn name_before(name: &[u16], other: &[u16]) -> bool
    ensures { IsTrue result ↔ IsNameBefore name.now other.now }
{
    if name.len() != other.len() {
        return name.len() < other.len();
    }
    for i in 0..name.len() {
        let unit = upper(name[i]);
        let other_unit = upper(other[i]);
        if unit != other_unit {
            return unit < other_unit;
        }
    }
    false
}

/// A list of streams. Each has a name of 1 to 31 units, which comes before all later names.
#[derive(Drop)]
pub struct Streams {
    alloc: Global,
    items: Vec<NamedStream>,
}

impl Model for Streams {
    ghost use Rattle.std.specs.Prelude.{List};
    ghost use Rattle.cfb_streams.specs.Contents.{NamedBytes, AreStreams, AreStored};

    ghost Value = { List NamedBytes };

    ghost view = { λ s. s.items.items };

    ghost invariant = { λ s. AreStreams s.items.items × AreStored s.items.items };
}

impl Streams {
    pub fn new(alloc: Global) -> Streams
        ensures { result ≡ [] }
    {
        Streams {
            alloc,
            items: Vec::new(alloc),
        }
    }

    /// The number of streams.
    pub fn count(&self) -> usize
        ensures len { result ≡ length self.now }
        ensures ordered { AreStreams self.now }
        ensures stored { AreStored self.now }
    {
        self.items.len()
    }

    /// The name of a stream.
    pub fn name(&self, i: usize) -> &[u16]
        requires { i < length self.now }
        ensures { option_map (λ s. s.name) (slice_get self.now i) ≡ Some result.now }
    {
        let stream = &self.items[i];
        stream.name()
    }

    /// The bytes of a stream.
    pub fn bytes(&self, i: usize) -> &[u8]
        requires { i < length self.now }
        ensures { option_map (λ s. s.bytes) (slice_get self.now i) ≡ Some result.now }
    {
        let stream = &self.items[i];
        stream.bytes()
    }

    /// Whether `add` may put a stream last: its name has 1 to 31 units and comes after the last one, and there is
    /// room for its bytes.
    pub fn can_add(&self, name: &[u16], bytes: &[u8]) -> bool
        ensures { IsTrue result ↔ AreStreams (self.now ++ (record { name = name.now; bytes = bytes.now }) ∷ []) }
    {
        if name.len() < MIN_NAME_UNITS || name.len() > MAX_NAME_UNITS {
            return false;
        }
        if !self.ends_before(name) {
            return false;
        }
        bytes.len() < MAX_TOTAL - self.total()
    }

    /// Whether a name comes after that of the last stream.
    fn ends_before(&self, name: &[u16]) -> bool
        ensures { IsTrue result ↔ IsAfterLastName self.now name.now }
    {
        if self.items.is_empty() {
            return true;
        }
        let last = &self.items[self.items.len() - 1];
        name_before(last.name(), name)
    }

    /// The number of bytes of all streams.
    fn total(&self) -> usize
        ensures sum { result ≡ sum_by (λ stream. length stream.bytes) self.now }
        ensures ordered { AreStreams self.now }
    {
        let mut total = 0;
        for i in 0..self.items.len() {
            total += self.bytes(i).len();
        }
        total
    }

    /// Puts a stream last. Its name comes after all earlier ones.
    pub fn add(&mut self, name: &[u16], bytes: &[u8]) -> Result<(), Memory>
        requires { AreStreams (self.old ++ (record { name = name.now; bytes = bytes.now }) ∷ []) }
        ensures ok { OnOk result (self.new ≡ self.old ++ (record { name = name.now; bytes = bytes.now }) ∷ []) }
        ensures err { OnErr result (self.new ≡ self.old) }
    {
        let name = Vec::from_slice(self.alloc, name)?;
        let bytes = Vec::from_slice(self.alloc, bytes)?;
        self.items.push(NamedStream { name, bytes })?;
        Ok(())
    }
}
