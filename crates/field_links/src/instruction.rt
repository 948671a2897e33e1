// The instruction of a HYPERLINK field: where it leads.
ghost use Rattle.std.specs.Prelude.{◌≡◌, Some, None, drop, MatchOption};
ghost use Rattle.field_links.specs.Words.{field_words};
ghost use Rattle.field_links.specs.Instructions.{part_behind, role_behind, role_of, role_of_letter, role_of_letters};
ghost use Rattle.field_links.specs.Instructions.{is_part, target_of};
ghost use Rattle.field_links.specs.Urls.{local_url, url_text};
ghost use Rattle.field_links.specs.Kept.{word_units, word_of};

use crate::LinkText;
use crate::scheme::has_scheme;
use crate::word::{FieldWord, is_solidus, next_word};
use std::marker::Model;

/// What a word of an instruction is.
#[derive(Clone, Copy)]
pub(crate) enum Role {
    Text,
    /// A switch without an argument.
    Flag,
    /// A switch whose argument is no location.
    Argued,
    Argument,
    /// The switch of a location.
    Located,
    Location,
}

/// What of a link is looked for.
#[derive(Clone, Copy)]
pub(crate) enum Part {
    InAddress,
    InLocation,
}

/// Where a hyperlink leads: the address and the location of its instruction, of which each may be empty.
#[derive(Drop)]
pub struct Link<'a> {
    address: FieldWord<'a>,
    location: FieldWord<'a>,
}

impl<'a> Model for Link<'a> {
    ghost use Rattle.field_links.specs.Instructions.{Target};
    ghost use Rattle.field_links.specs.Kept.{word_units};

    ghost Value = { Target };

    ghost view = { λ l. record { address = word_units l.address; location = word_units l.location } };
}

/// Where the instruction of a HYPERLINK field leads. It takes no memory.
pub fn link_of(instruction: &[u16]) -> Link<'_>
    ensures { result ≡ target_of instruction.now }
{
    let words = behind_name(instruction);
    Link {
        address: part_of(words, Part::InAddress),
        location: part_of(words, Part::InLocation),
    }
}

impl<'a> Link<'a> {
    /// The URL of the link, where it has one of the five schemes or leads to a bookmark of the document.
    pub fn url(&self) -> Option<LinkText<'a>>
        ensures { MatchOption result (url_text self.now ≡ None) (λ text. url_text self.now ≡ Some text) }
    {
        if self.address.is_empty() {
            return local_url(&self.location);
        }
        if !has_scheme(&self.address) {
            return None;
        }
        Some(LinkText::of_address(&self.address, &self.location))
    }
}

/// The URL of a location in the document itself.
fn local_url<'a>(location: &FieldWord<'a>) -> Option<LinkText<'a>>
    ensures { MatchOption result (local_url (word_units location.now) ≡ None)
        (λ text. local_url (word_units location.now) ≡ Some text) }
{
    if location.is_empty() {
        return None;
    }
    Some(LinkText::of_location(location))
}

/// An instruction without its first word.
fn behind_name(instruction: &[u16]) -> &[u16]
    ensures { field_words result.now ≡ drop 1 (field_words instruction.now) }
{
    match next_word(instruction) {
        Some((_, rest)) => rest,
        None => instruction,
    }
}

/// A part of the link of these words; an empty word where there is none.
fn part_of(words: &[u16], part: Part) -> FieldWord<'_>
    ensures { word_units result ≡ part_behind part Role.Text (field_words words.now) }
{
    let mut rest = words;
    let mut role = Role::Text;
    while let Some((word, more)) = next_word(rest) {
        role = role_behind(role, &word);
        if is_part(part, role) {
            return word;
        }
        rest = more;
    }
    FieldWord::whole(&words[words.len()..])
}

/// What a word is behind one of another role.
fn role_behind(before: Role, word: &FieldWord<'_>) -> Role
    ensures { result ≡ role_behind before (word_of word.now) }
{
    match before {
        Role::Argued => Role::Argument,
        Role::Located => Role::Location,
        Role::Text | Role::Flag | Role::Argument | Role::Location => role_of(word),
    }
}

/// What a word is by itself: one in quotes is no switch.
fn role_of(word: &FieldWord<'_>) -> Role
    ensures { result ≡ role_of (word_of word.now) }
{
    if word.is_quoted() {
        return Role::Text;
    }
    let Some((unit, letters)) = word.next_unit() else {
        return Role::Text;
    };
    if is_solidus(unit) {
        role_of_letters(&letters)
    } else {
        Role::Text
    }
}

/// The switch of these letters.
fn role_of_letters(letters: &FieldWord<'_>) -> Role
    ensures { result ≡ role_of_letters (word_units letters.now) }
{
    let Some((letter, more)) = letters.next_unit() else {
        return Role::Flag;
    };
    if more.is_empty() {
        role_of_letter(letter)
    } else {
        Role::Flag
    }
}

/// The switch of a letter: `\l` has a location, `\o`, `\t` and the general `\*` have other arguments.
fn role_of_letter(letter: u16) -> Role
    ensures { result ≡ role_of_letter letter }
{
    match letter {
        0x6C => Role::Located,
        0x6F | 0x74 | 0x2A => Role::Argued,
        _ => Role::Flag,
    }
}

/// Whether a word of this role is the part.
fn is_part(part: Part, role: Role) -> bool
    ensures { result ≡ is_part part role }
{
    match part {
        Part::InAddress => matches!(role, Role::Text),
        Part::InLocation => matches!(role, Role::Location),
    }
}
