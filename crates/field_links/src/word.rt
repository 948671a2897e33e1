// Words of an instruction, read unit by unit. They take no memory.
ghost use Rattle.std.specs.Prelude.{◌≡◌, ◌<◌, ◌≤◌, [], true, false, length, drop, slice_index, MatchOption};
ghost use Rattle.text_codes.specs.Shown.{is_pair, pair_code};
ghost use Rattle.field_links.specs.Words.{field_words, is_quote, is_separator, is_solidus};
ghost use Rattle.field_links.specs.Characters.{character_alone};
ghost use Rattle.field_links.specs.Urls.{is_nil};
ghost use Rattle.field_links.specs.Kept.{HasFirstCharacter, HasFirstUnit, HasFirstWord, IsUnitAt};
ghost use Rattle.field_links.specs.Kept.{front, is_in_quotes, rest_of, word_units, word_of};

use text_codes::{REPLACEMENT, SPACE};

const QUOTE: u16 = 0x22;

const REVERSE_SOLIDUS: u16 = 0x5C;

/// Where a word ends in the units that it begins with.
#[derive(Clone, Copy)]
pub(crate) enum Extent {
    /// At a separator or a quote.
    Plain,
    /// At a quote in front of which no reverse solidus is.
    Quoted,
    /// With the units.
    Whole,
}

/// A word of an instruction, from a unit on, and what follows it.
#[derive(Clone, Copy)]
pub(crate) struct FieldWord<'a> {
    pub(crate) extent: Extent,
    pub(crate) rest: &'a [u16],
}

impl<'a> FieldWord<'a> {
    /// All of the units.
    pub(crate) fn whole(units: &'a [u16]) -> FieldWord<'a>
        ensures { word_units result ≡ units.now }
    {
        FieldWord {
            extent: Extent::Whole,
            rest: units,
        }
    }

    /// No units.
    pub(crate) fn end(&self) -> FieldWord<'a>
        ensures { word_units result ≡ [] }
    {
        FieldWord::whole(&self.rest[self.rest.len()..])
    }

    /// Whether the word has no units.
    pub(crate) fn is_empty(&self) -> bool
        ensures { result ≡ is_nil (word_units self.now) }
    {
        self.next_unit().is_none()
    }

    /// Whether it is between quotes.
    pub(crate) fn is_quoted(&self) -> bool
        ensures { result ≡ is_in_quotes self.now.extent }
    {
        matches!(self.extent, Extent::Quoted)
    }

    /// Its first unit, and the word without it.
    pub(crate) fn next_unit(&self) -> Option<(u16, FieldWord<'a>)>
        ensures { MatchOption result (word_units self.now ≡ []) (λ next. HasFirstUnit self.now next.0 next.1) }
    {
        let place = unit_place(self.rest, self.extent)?;
        let more = FieldWord {
            extent: self.extent,
            rest: &self.rest[place + 1..],
        };
        Some((self.rest[place], more))
    }

    /// Its first character, and the word without it.
    pub(crate) fn next_character(&self) -> Option<(char, FieldWord<'a>)>
        ensures { MatchOption result (word_units self.now ≡ []) (λ next. HasFirstCharacter self.now next.0 next.1) }
    {
        let (first, more) = self.next_unit()?;
        let Some((second, last)) = more.next_unit() else {
            return Some((character_alone(first), more));
        };
        if is_pair(first, second) {
            return Some((character_of_pair(first, second), last));
        }
        Some((character_alone(first), more))
    }

    /// What follows the word in its instruction.
    fn behind(&self) -> &'a [u16]
        ensures rest { result.now ≡ rest_of self.now }
        ensures long { length result.now ≤ length self.now.rest.now }
    {
        let mut word = *self;
        while let Some((_, more)) = word.next_unit() {
            word = more;
        }
        word.behind_end()
    }

    /// What follows the word in its instruction, where no unit of the word is left.
    fn behind_end(&self) -> &'a [u16]
        requires { word_units self.now ≡ [] }
        ensures rest { result.now ≡ rest_of self.now }
        ensures long { length result.now ≤ length self.now.rest.now }
    {
        if self.is_quoted() {
            without_first(self.rest)
        } else {
            self.rest
        }
    }
}

/// Units without the first one.
fn without_first(units: &[u16]) -> &[u16]
    ensures { result.now ≡ drop 1 units.now }
{
    if units.is_empty() {
        return units;
    }
    &units[1..]
}

/// Where the first unit of a word is.
fn unit_place(rest: &[u16], extent: Extent) -> Option<usize>
    ensures { MatchOption result (front extent rest.now ≡ []) (IsUnitAt extent rest.now) }
{
    if rest.is_empty() {
        return None;
    }
    match extent {
        Extent::Plain => plain_place(rest),
        Extent::Quoted => quoted_place(rest),
        Extent::Whole => Some(0),
    }
}

/// Where the first unit of a word outside of quotes is.
fn plain_place(rest: &[u16]) -> Option<usize>
    requires { 0 < length rest.now }
    ensures { MatchOption result (front Extent.Plain rest.now ≡ []) (IsUnitAt Extent.Plain rest.now) }
{
    if is_separator(rest[0]) {
        return None;
    }
    if is_quote(rest[0]) {
        return None;
    }
    Some(0)
}

/// Where the first unit of a word between quotes is.
fn quoted_place(rest: &[u16]) -> Option<usize>
    requires { 0 < length rest.now }
    ensures { MatchOption result (front Extent.Quoted rest.now ≡ []) (IsUnitAt Extent.Quoted rest.now) }
{
    if is_quote(rest[0]) {
        return None;
    }
    if !is_solidus(rest[0]) {
        return Some(0);
    }
    if rest.len() < 2 {
        return None;
    }
    Some(1)
}

/// The first word of an instruction, and the instruction behind it.
pub(crate) fn next_word(instruction: &[u16]) -> Option<(FieldWord<'_>, &[u16])>
    ensures { MatchOption result (field_words instruction.now ≡ [])
        (λ next. HasFirstWord instruction.now (word_of next.0) next.1.now) }
{
    let units = behind_separators(instruction);
    if units.is_empty() {
        return None;
    }
    let word = word_at(units);
    Some((word, word.behind()))
}

/// An instruction without the separators at its front.
fn behind_separators(instruction: &[u16]) -> &[u16]
    ensures words { field_words result.now ≡ field_words instruction.now }
    ensures long { length result.now ≤ length instruction.now }
    ensures first { 0 < length result.now → is_separator (slice_index result.now 0) ≡ false }
{
    for count in 0..instruction.len() {
        if !is_separator(instruction[count]) {
            return &instruction[count..];
        }
    }
    &instruction[instruction.len()..]
}

/// The word that begins an instruction.
fn word_at(units: &[u16]) -> FieldWord<'_>
    requires some { 0 < length units.now }
    requires first { is_separator (slice_index units.now 0) ≡ false }
    ensures { HasFirstWord units.now (word_of result) (rest_of result) }
{
    if is_quote(units[0]) {
        FieldWord {
            extent: Extent::Quoted,
            rest: &units[1..],
        }
    } else {
        FieldWord {
            extent: Extent::Plain,
            rest: units,
        }
    }
}

/// Whether a unit parts words.
fn is_separator(unit: u16) -> bool
    ensures { result ≡ is_separator unit }
{
    unit <= SPACE
}

/// Whether a unit begins or ends a word in quotes.
fn is_quote(unit: u16) -> bool
    ensures { result ≡ is_quote unit }
{
    unit == QUOTE
}

/// Whether a unit begins a switch, or takes the next one as it is.
pub(crate) fn is_solidus(unit: u16) -> bool
    ensures { result ≡ is_solidus unit }
{
    unit == REVERSE_SOLIDUS
}

/// Whether two units are the halves of a character.
fn is_pair(first: u16, second: u16) -> bool
    ensures { result ≡ is_pair first second }
{
    first >= 0xD800 && first < 0xDC00 && second >= 0xDC00 && second < 0xE000
}

/// The character of two halves.
fn character_of_pair(first: u16, second: u16) -> char
    requires { is_pair first second ≡ true }
    ensures { result ≡ pair_code first second }
{
    let code = 0x1_0000 + (first as u32 - 0xD800) * 0x400 + (second as u32 - 0xDC00);
    char::from_u32(code).unwrap()
}

/// The character of a unit in no pair.
fn character_alone(unit: u16) -> char
    ensures { result ≡ character_alone unit }
{
    let whole = if unit >= 0xD800 && unit < 0xE000 {
        REPLACEMENT
    } else {
        unit
    };
    char::from_u32(whole as u32).unwrap()
}
