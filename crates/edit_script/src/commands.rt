// What a script has. After want of memory a list is what it was.
ghost use Rattle.std.specs.Prelude.{◌≡◌, ◌<◌, [], ◌∷◌, ◌++◌, length};
ghost use Rattle.std.specs.Prelude.{slice_get, Some, OnOk, OnErr, IsTrue, ◌↔◌};
ghost use Rattle.edit_script.specs.Scripts.{EndsWithSave};

use doc_bits::{Memory, Story, Units};
use prop_map::PropMap;
use std::alloc::Global;
use std::marker::Model;

/// An edit of a document, or a save. Places count items of the text from 0; ranges are from the first place to before
/// the second.
#[derive(Drop)]
pub enum Command {
    /// Puts units before a place.
    Insert(Story, u32, Units),
    /// Takes the items of a range away.
    Erase(Story, u32, u32),
    /// Sets character codes of a range.
    Char(Story, u32, u32, PropMap),
    /// Clears the character codes of a range.
    Plain(Story, u32, u32),
    /// Sets codes of the mark of the paragraph that holds the place.
    Para(Story, u32, PropMap),
    /// Gives that mark a style, by its number.
    Style(Story, u32, u16),
    /// Puts a field of this type, with its code and its result.
    Field(Story, u32, u8, Units, Units),
    /// Puts a note of this text, and a reference to it before a place of the main text.
    Note(u32, Units),
    /// Puts a paragraph mark before a place.
    Split(Story, u32),
    /// Takes the mark of the paragraph that holds the place away.
    Merge(Story, u32),
    /// Sets codes of the section that holds the place; where the field is true, of a new section that ends there.
    Sect(u32, bool, PropMap),
    /// Puts a row of a table, each cell so many twentieths of a point wide, with these texts.
    Row(Story, u32, u16, Cells),
    /// Sets character codes of a style.
    StyleChar(u16, PropMap),
    /// Sets paragraph codes of a style.
    StylePara(u16, PropMap),
    /// Puts a bookmark of this name over a range of the main text.
    Bookmark(Units, u32, u32),
    /// Takes the bookmark of this name away.
    Unmark(Units),
    /// Saves the document: true is a full save, false a fast one.
    Save(bool),
}

/// The texts of the cells of a row.
#[derive(Drop)]
pub struct Cells {
    texts: Vec<Units>,
}

impl Model for Cells {
    ghost use Rattle.std.specs.Prelude.{ℕ, List};
    ghost use Rattle.std.specs.Coded.{coded_ℕ, coded_list};

    ghost Value = { List (List ℕ) };

    ghost coded = { coded_list (coded_list coded_ℕ) };

    ghost view = { λ c. c.texts.items };
}

impl Cells {
    pub fn new(alloc: Global) -> Cells
        ensures { result ≡ [] }
    {
        Cells {
            texts: Vec::new(alloc),
        }
    }

    /// The number of cells.
    pub fn len(&self) -> usize
        ensures { result ≡ length self.now }
    {
        self.texts.len()
    }

    pub fn get(&self, i: usize) -> &Units
        requires { i < length self.now }
        ensures { slice_get self.now i ≡ Some result.now }
    {
        &self.texts[i]
    }

    /// Puts a cell last.
    pub fn add(&mut self, cell: Units) -> Result<(), Memory>
        ensures ok { OnOk result (self.new ≡ self.old ++ cell ∷ []) }
        ensures err { OnErr result (self.new ≡ self.old) }
    {
        self.texts.push(cell)?;
        Ok(())
    }
}

/// A list of commands.
#[derive(Drop)]
pub struct Script {
    commands: Vec<Command>,
}

impl Model for Script {
    ghost use Rattle.std.specs.Prelude.{List};
    ghost use Rattle.std.specs.Coded.{coded_list};
    ghost use Rattle.edit_script.specs.declared.commands.Command.{Command};
    ghost use Rattle.edit_script.specs.contracts.commands.Command as row;

    ghost Value = { List Command };

    ghost coded = { coded_list row.the_row.coded };

    ghost view = { λ s. s.commands.items };
}

impl Script {
    pub fn new(alloc: Global) -> Script
        ensures { result ≡ [] }
    {
        Script {
            commands: Vec::new(alloc),
        }
    }

    /// The number of commands.
    pub fn len(&self) -> usize
        ensures { result ≡ length self.now }
    {
        self.commands.len()
    }

    pub fn get(&self, i: usize) -> &Command
        requires { i < length self.now }
        ensures { slice_get self.now i ≡ Some result.now }
    {
        &self.commands[i]
    }

    /// Whether the last command is a save.
    pub fn ends_with_save(&self) -> bool
        ensures { IsTrue result ↔ EndsWithSave self.now }
    {
        matches!(self.commands.last(), Some(Command::Save(_)))
    }

    /// Puts a command last.
    pub fn add(&mut self, command: Command) -> Result<(), Memory>
        ensures ok { OnOk result (self.new ≡ self.old ++ command ∷ []) }
        ensures err { OnErr result (self.new ≡ self.old) }
    {
        self.commands.push(command)?;
        Ok(())
    }
}
