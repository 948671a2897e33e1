// The characters of a URL or of the name of an anchor, one after the other. They take no memory.
ghost use Rattle.std.specs.Prelude.{◌≡◌, ◌∷◌, ◌++◌, [], MatchOption};
ghost use Rattle.field_links.specs.Urls.{anchor_name, fragment_text, percent_text};
ghost use Rattle.field_links.specs.Kept.{rest_of_target, word_units};

use crate::waiting::Waiting;
use crate::word::FieldWord;
use std::marker::Model;

/// How characters are written.
#[derive(Clone, Copy)]
pub(crate) enum Manner {
    /// As in a URL.
    Percent,
    /// As in the name of an anchor.
    Anchor,
}

/// What is left of a text: characters that wait, a word, and another one behind a number sign.
#[derive(Drop)]
pub(crate) struct Left<'a> {
    pub(crate) waiting: Waiting,
    pub(crate) manner: Manner,
    pub(crate) word: FieldWord<'a>,
    pub(crate) fragment: FieldWord<'a>,
}

/// The characters of a URL or of the name of an anchor. Contracts see those that were not taken yet.
#[derive(Drop)]
pub struct LinkText<'a> {
    left: Left<'a>,
}

impl<'a> Model for LinkText<'a> {
    ghost use Rattle.std.specs.Prelude.{ℕ, List};
    ghost use Rattle.field_links.specs.Kept.{rest_of_target};

    ghost Value = { List ℕ };

    ghost view = { λ t. rest_of_target t.left };
}

/// The name of the anchor of a bookmark: no two bookmarks of a document have the same one.
pub fn anchor_of(name: &[u16]) -> LinkText<'_>
    ensures { result ≡ anchor_name name.now }
{
    LinkText {
        left: Left {
            waiting: Waiting::before_name(),
            manner: Manner::Anchor,
            word: FieldWord::whole(name),
            fragment: FieldWord::whole(&name[name.len()..]),
        },
    }
}

impl<'a> LinkText<'a> {
    /// An address, and a location in what it names.
    pub(crate) fn of_address(address: &FieldWord<'a>, location: &FieldWord<'a>) -> LinkText<'a>
        ensures { result ≡ percent_text (word_units address.now) ++ fragment_text (word_units location.now) }
    {
        LinkText {
            left: Left {
                waiting: Waiting::new(),
                manner: Manner::Percent,
                word: *address,
                fragment: *location,
            },
        }
    }

    /// The bookmark of a name in the page itself.
    pub(crate) fn of_location(location: &FieldWord<'a>) -> LinkText<'a>
        ensures { result ≡ 35 ∷ anchor_name (word_units location.now) }
    {
        let mut waiting = Waiting::before_name();
        waiting.push('#');
        LinkText {
            left: Left {
                waiting,
                manner: Manner::Anchor,
                word: *location,
                fragment: location.end(),
            },
        }
    }

    /// Takes the next character.
    pub fn next_char(&mut self) -> Option<char>
        ensures { MatchOption result ((self.old ≡ []) × (self.new ≡ [])) (λ code. self.old ≡ code ∷ self.new) }
    {
        if self.left.waiting.is_empty() {
            self.left.go_on();
        }
        self.left.waiting.pop()
    }
}

impl<'a> Left<'a> {
    /// Goes on to the next character of a word, which waits then.
    fn go_on(&mut self)
        requires { self.old.waiting ≡ [] }
        ensures same { rest_of_target self.new ≡ rest_of_target self.old }
        ensures some { self.new.waiting ≡ [] → rest_of_target self.new ≡ [] }
    {
        if let Some((character, more)) = self.word.next_character() {
            self.word = more;
            self.waiting.put(self.manner, character);
            return;
        }
        if !self.fragment.is_empty() {
            self.word = self.fragment;
            self.fragment = self.fragment.end();
            self.manner = Manner::Percent;
            self.waiting.push('#');
        }
    }
}
