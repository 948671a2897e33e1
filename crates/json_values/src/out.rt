// A text of JSON that grows. No tree of values is made: each piece is counted and put behind the rest.
ghost use Rattle.std.specs.Prelude.{◌≡◌, ◌≤◌, ◌<◌, [], OnOk, OnErr, MatchOption};
ghost use Rattle.json_values.specs.Out.{Adds};

use doc_bits::{Memory, Text};
use std::alloc::Global;
use std::marker::Model;

/// A text that is counted, and kept while it has at most `most` bytes.
#[derive(Drop)]
pub struct JsonOut {
    text: Text,
    len: u64,
    most: u64,
}

impl Model for JsonOut {
    ghost use Rattle.json_values.specs.Out.{Output, output_code, IsShortOutput};

    ghost Value = { Output };

    ghost coded = { output_code };

    ghost view = { λ o. record { text = o.text; len = o.len; most = o.most } };

    ghost invariant = { λ o. IsShortOutput (record { text = o.text; len = o.len; most = o.most }) };
}

impl JsonOut {
    /// The empty text. It takes no memory.
    pub fn new(alloc: Global, most: u64) -> JsonOut
        ensures { result ≡ record { text = []; len = 0; most = most } }
    {
        JsonOut {
            text: Text::new(alloc),
            len: 0,
            most,
        }
    }

    /// Puts a piece behind the text. A length that leaves 64 bits is want of memory.
    pub fn push(&mut self, piece: &str) -> Result<(), Memory>
        ensures ok { OnOk result (Adds self.old self.new piece.now) }
        ensures err { OnErr result (self.new ≡ self.old) }
    {
        let Some(len) = self.len.checked_add(piece.len() as u64) else {
            return Err(Memory);
        };
        if len <= self.most {
            self.text.push_all(piece)?;
        }
        self.len = len;
        Ok(())
    }

    /// How many bytes the text has.
    pub fn len(&self) -> u64
        ensures { result ≡ self.now.len }
    {
        self.len
    }

    /// The text, where it has at most `most` bytes.
    pub fn text(&self) -> Option<&str>
        ensures { MatchOption result
            (self.now.most < self.now.len)
            (λ text. (self.now.len ≤ self.now.most) × (text.now ≡ self.now.text)) }
    {
        if self.len > self.most {
            return None;
        }
        Some(self.text.as_str())
    }

    /// The text that is kept.
    pub fn into_text(self) -> Text
        ensures { result ≡ self.text }
    {
        self.text
    }
}
