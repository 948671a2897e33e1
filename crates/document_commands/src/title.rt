// A title that may be put.
ghost use Rattle.std.specs.Prelude.{◌≡◌, MatchOption};
ghost use Rattle.summary_set.specs.Written.{IsTitle};

use std::marker::Model;
use summary_set::is_title;

/// A title of at most 255 bytes, each of them a character of plain ASCII.
#[derive(Drop)]
pub struct Title<'a> {
    text: &'a str,
}

impl<'a> Model for Title<'a> {
    ghost use Rattle.std.specs.Prelude.{ℕ, List};
    ghost use Rattle.summary_set.specs.Written.{IsTitle};

    ghost Value = { List ℕ };

    ghost view = { λ t. t.text.now };

    ghost invariant = { λ t. IsTitle t.text.now };
}

impl<'a> Title<'a> {
    /// The title that a word is, where it is one.
    pub fn of(text: &'a str) -> Option<Title<'a>>
        ensures { MatchOption result (¬ (IsTitle text.now)) (λ title. (title ≡ text.now) × IsTitle text.now) }
    {
        if is_title(text.as_bytes()) {
            Some(Title { text })
        } else {
            None
        }
    }

    /// Its characters.
    pub fn bytes(&self) -> &'a [u8]
        ensures same { result.now ≡ self.now }
        ensures title { IsTitle result.now }
    {
        self.text.as_bytes()
    }
}
