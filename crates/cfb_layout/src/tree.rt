// The tree of the root's entries.
ghost use Rattle.std.specs.Prelude.{◌≡◌, ◌+◌, ◌^◌, ◌<◌};
ghost use Rattle.std.specs.Prelude.{◌≤◌, nat_lt, if◌then◌else◌};
ghost use Rattle.cfb_layout.specs.Tree.{middle, lower, upper, top, all_entries, span_of_entry};

/// NOSTREAM: no entry is named.
pub const NO_ENTRY: u32 = 0xFFFF_FFFF;

/// Entries in a row: the first one, and how many there are.
#[derive(Clone, Copy)]
pub struct Span {
    pub low: u32,
    pub count: u32,
}

impl Span {
    /// The entry on top.
    fn middle(self) -> u32
        requires { self.low + self.count < 2 ^ 32 }
        ensures { result ≡ middle self }
    {
        self.low + self.count / 2
    }

    /// The entries below the middle one.
    pub(crate) fn lower(self) -> Span
        ensures { result ≡ lower self }
    {
        Span {
            low: self.low,
            count: self.count / 2,
        }
    }

    /// The entries above the middle one.
    pub(crate) fn upper(self) -> Span
        requires room { self.low + self.count < 2 ^ 32 }
        requires some { 0 < self.count }
        ensures { result ≡ upper self }
    {
        Span {
            low: self.low + self.count / 2 + 1,
            count: self.count - self.count / 2 - 1,
        }
    }

    /// The link to the entries.
    pub(crate) fn top(self) -> u32
        requires { self.low + self.count < 2 ^ 32 }
        ensures { result ≡ top self }
    {
        if self.count == 0 {
            NO_ENTRY
        } else {
            self.middle()
        }
    }

    /// The half with an entry that is not in the middle.
    fn half_with(self, entry: u32) -> Span
        requires room { self.low + self.count < 2 ^ 32 }
        requires some { 0 < self.count }
        ensures { result ≡ (if nat_lt entry (middle self) then lower self else upper self) }
    {
        if entry < self.middle() {
            self.lower()
        } else {
            self.upper()
        }
    }
}

/// The entries of so many streams.
pub(crate) fn all_entries(count: u32) -> Span
    ensures { result ≡ all_entries count }
{
    Span { low: 1, count }
}

/// The part of the tree that has the entry on top.
pub(crate) fn part_of(count: u32, entry: u32) -> Span
    requires few { count < 2 ^ 31 }
    requires first { 1 ≤ entry }
    requires last { entry ≤ count }
    ensures is { result ≡ span_of_entry count entry (all_entries count) }
    ensures some { 0 < result.count }
    ensures room { result.low + result.count ≤ count + 1 }
{
    let mut span = all_entries(count);
    while span.middle() != entry {
        span = span.half_with(entry);
    }
    span
}
