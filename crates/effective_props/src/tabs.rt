// Lists of tab stops.
ghost use Rattle.std.specs.Prelude.{◌≡◌, ◌<◌, ◌++◌, ◌∷◌, [], length, Some, OnOk, OnErr};
ghost use Rattle.std.specs.List.{slice_get};

use doc_bits::Memory;
use std::alloc::Global;
use std::marker::Model;

/// A tab stop.
#[derive(Clone, Copy)]
pub struct Tab {
    /// Its position, in twentieths of a point from the edge of the text.
    pub at: i16,
    /// [MS-DOC] TBD: its alignment and leader.
    pub kind: u8,
}

/// A list of tab stops.
#[derive(Drop)]
pub struct Tabs {
    items: Vec<Tab>,
}

impl Model for Tabs {
    ghost use Rattle.std.specs.Prelude.{List};
    ghost use Rattle.effective_props.specs.declared.tabs.Tab.{Tab};

    ghost Value = { List Tab };

    ghost view = { λ t. t.items.items };
}

impl Tabs {
    pub fn new(alloc: Global) -> Tabs
        ensures { result ≡ [] }
    {
        Tabs {
            items: Vec::new(alloc),
        }
    }

    pub fn len(&self) -> usize
        ensures { result ≡ length self.now }
    {
        self.items.len()
    }

    pub fn get(&self, i: usize) -> &Tab
        requires { i < length self.now }
        ensures { slice_get self.now i ≡ Some result.now }
    {
        &self.items[i]
    }

    /// Puts a stop last.
    pub fn add(&mut self, tab: Tab) -> Result<(), Memory>
        ensures ok { OnOk result (self.new ≡ self.old ++ tab ∷ []) }
        ensures err { OnErr result (self.new ≡ self.old) }
    {
        self.items.push(tab)?;
        Ok(())
    }
}
