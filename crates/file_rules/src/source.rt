// What the rules on the parts of a document read.
ghost use Rattle.std.specs.Prelude.{◌≡◌, ◌+◌, ◌<◌, ◌≤◌, ◌^◌, length, slice_range};
ghost use Rattle.fib_form.specs.Fib.{fib_pair};
ghost use Rattle.fib_form.specs.TableParts.{pair_number};
ghost use Rattle.file_rules.specs.Source.{part_place, table_part_bytes, story_length, story_begin, story_units};
ghost use Rattle.file_rules.specs.Source.{story_places};
ghost use Rattle.file_rules.specs.FormatRules.{judged_places, judged_units, text_count};

use crate::TextUnits;
use direct_props::Places;
use fib_form::{Fib, StoryKind, TablePart};
use std::marker::Model;

/// `WordDocument` with its FIB, the table stream, and the text by CP.
#[derive(Drop)]
pub struct Source<'a> {
    wd: &'a [u8],
    fib: &'a Fib,
    table: &'a [u8],
    text: &'a TextUnits,
}

impl<'a> Model for Source<'a> {
    ghost use Rattle.file_rules.specs.Source.{DocSource, IsSource};

    ghost Value = { DocSource };

    ghost view = { λ s. record { wd = s.wd.now; table = s.table.now; text = s.text.now } };

    ghost invariant = { λ s. IsSource (record { wd = s.wd.now; table = s.table.now; text = s.text.now }) s.fib.now };
}

impl<'a> Source<'a> {
    ghost use Rattle.file_rules.specs.Source.{DocSource, IsSource};

    /// The source of these streams, of this FIB and of this text.
    pub fn new(wd: &'a [u8], fib: &'a Fib, table: &'a [u8], text: &'a TextUnits) -> Source<'a>
        requires { IsSource (record { wd = wd.now; table = table.now; text = text.now }) fib.now }
        ensures { result ≡ record { wd = wd.now; table = table.now; text = text.now } }
    {
        Source {
            wd,
            fib,
            table,
            text,
        }
    }

    /// The bytes of `WordDocument`.
    pub fn wd(&self) -> &'a [u8]
        ensures bytes { result.now ≡ self.now.wd }
        ensures small { length result.now < 2 ^ 32 }
    {
        self.wd
    }

    /// The bytes of the table stream.
    pub fn table(&self) -> &'a [u8]
        ensures bytes { result.now ≡ self.now.table }
        ensures small { length result.now < 2 ^ 32 }
    {
        self.table
    }

    /// Where a part begins in the table stream.
    pub fn place(&self, part: TablePart) -> u32
        ensures place { result ≡ part_place self.now part }
        ensures addressed { result + length (table_part_bytes self.now part) < 2 ^ 32 }
    {
        self.pair(part).0
    }

    /// The bytes of a part, as far as they are within the table stream.
    pub fn part(&self, part: TablePart) -> &'a [u8]
        ensures bytes { result.now ≡ table_part_bytes self.now part }
        ensures addressed { part_place self.now part + length result.now < 2 ^ 32 }
        ensures within { 0 < length result.now
            → part_place self.now part + length result.now ≤ length self.now.table }
        ensures small { length self.now.table < 2 ^ 32 }
    {
        part_at(self.table, self.pair(part))
    }

    /// Where a part begins in the table stream, and its length in bytes.
    pub(crate) fn pair(&self, part: TablePart) -> (u32, u32)
        ensures pair { result ≡ fib_pair self.now.wd (pair_number part) }
        ensures small { length self.now.table < 2 ^ 32 }
    {
        self.fib.pair(part.pair())
    }

    /// The number of units of a story.
    pub fn story_len(&self, story: StoryKind) -> u32
        ensures count { result ≡ story_length self.now story }
        ensures few { result ≤ 500000 }
    {
        self.fib.story_len(story)
    }

    /// The CP of the text where a story begins.
    pub fn story_begin(&self, story: StoryKind) -> u32
        ensures begin { result ≡ story_begin self.now story }
        ensures units { result + story_length self.now story ≤ length self.now.text.units }
        ensures places { result + story_length self.now story ≤ length self.now.text.places }
    {
        self.fib.story_begin(story)
    }

    /// The units of a story, by its CPs.
    pub fn units(&self, story: StoryKind) -> &'a [u16]
        ensures units { result.now ≡ story_units self.now story }
        ensures few { length result.now ≤ 500000 }
        ensures count { length result.now ≡ story_length self.now story }
    {
        let from = self.story_begin(story) as usize;
        &self.text.units()[from..from + self.story_len(story) as usize]
    }

    /// The places of these units in `WordDocument`.
    pub fn places(&self, story: StoryKind) -> Places<'a>
        ensures places { result ≡ story_places self.now story }
        ensures few { length result ≤ 500000 }
        ensures count { length result ≡ story_length self.now story }
    {
        let all = self.text.places();
        let from = all.skip(self.story_begin(story) as usize);
        from.front(self.story_len(story) as usize)
    }

    /// The units of the three stories, by CP.
    pub fn judged_units(&self) -> &'a [u16]
        ensures units { result.now ≡ judged_units self.now }
        ensures all { length result.now ≡ text_count self.now }
        ensures few { length result.now ≤ 500000 }
        ensures count { length result.now ≡ length (judged_places self.now) }
    {
        &self.text.units()[..self.judged_count()]
    }

    /// The places of these units in `WordDocument`.
    pub fn judged_places(&self) -> Places<'a>
        ensures places { result ≡ judged_places self.now }
        ensures count { length result ≡ length (judged_units self.now) }
    {
        let all = self.text.places();
        all.front(self.judged_count())
    }

    /// The number of CPs of the three stories.
    pub(crate) fn judged_count(&self) -> usize
        ensures count { result ≡ text_count self.now }
        ensures few { result ≤ 500000 }
        ensures units { result ≤ length self.now.text.units }
        ensures places { result ≤ length self.now.text.places }
    {
        (self.fib.ccp(0) + self.fib.ccp(1) + self.fib.ccp(2)) as usize
    }
}

/// The bytes of the table stream that a pair of the FIB names, as far as they are within it.
pub(crate) fn part_at<'a>(table: &'a [u8], pair: (u32, u32)) -> &'a [u8]
    requires small { length table.now < 2 ^ 32 }
    ensures bytes { result.now ≡ slice_range table.now pair.0 (pair.0 + pair.1) }
    ensures addressed { pair.0 + length result.now < 2 ^ 32 }
    ensures within { 0 < length result.now → pair.0 + length result.now ≤ length table.now }
{
    let (fc, lcb) = pair;
    let from = table.len().min(fc as usize);
    let to = table.len().min(fc as usize + lcb as usize);
    &table[from..to]
}
