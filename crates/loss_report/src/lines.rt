// The lines of a report, kept until they are counted.
ghost use Rattle.std.specs.Prelude.{◌≡◌, ◌<◌, [], ◌∷◌, ◌++◌, length, slice_get, Some, OnOk, OnErr};
ghost use Rattle.std.specs.List.{flat_map};

use doc_bits::{Memory, Text};
use std::alloc::Global;
use std::marker::Model;

/// Lines that say what is left out, in their order. Each ends with a line feed.
#[derive(Drop)]
pub struct LossLines {
    items: Vec<Text>,
}

impl Model for LossLines {
    ghost use Rattle.std.specs.Prelude.{ℕ, List};

    ghost Value = { List (List ℕ) };

    ghost view = { λ l. l.items.items };
}

impl LossLines {
    /// No lines.
    pub fn new(alloc: Global) -> LossLines
        ensures { result ≡ [] }
    {
        LossLines {
            items: Vec::new(alloc),
        }
    }

    /// The number of lines.
    pub fn len(&self) -> usize
        ensures { result ≡ length self.now }
    {
        self.items.len()
    }

    /// Puts a line behind them. It ends with a line feed.
    pub fn add(&mut self, line: Text) -> Result<(), Memory>
        ensures ok { OnOk result (self.new ≡ self.old ++ line ∷ []) }
        ensures err { OnErr result (self.new ≡ self.old) }
    {
        self.items.push(line)?;
        Ok(())
    }

    /// Puts the lines behind a text, one after the other.
    pub fn put_behind(&self, text: &mut Text) -> Result<(), Memory>
        ensures { OnOk result (text.new ≡ text.old ++ flat_map (λ line. line) self.now) }
    {
        for i in 0..self.items.len() {
            let line = self.line(i);
            text.push_all(line)?;
        }
        Ok(())
    }

    /// A line by its place. It ends with a line feed.
    pub fn line(&self, i: usize) -> &str
        requires { i < length self.now }
        ensures { slice_get self.now i ≡ Some result.now }
    {
        let line = &self.items[i];
        line.as_str()
    }
}
