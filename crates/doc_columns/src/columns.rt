// A text by columns, which are its own or which it shares with others. Contracts see the list of its items.
ghost use Rattle.std.specs.Prelude.{◌≡◌, ◌+◌, ◌-◌, ◌^◌, ◌<◌, ◌≤◌};
ghost use Rattle.std.specs.Prelude.{[], ◌∷◌, ◌++◌, length, map, slice_get, slice_range, All, Some, IfOk};
ghost use Rattle.std.specs.List.{splice};
ghost use Rattle.prop_map.specs.Formed.{IsPropertyMap, character_groups};
ghost use Rattle.run_lists.specs.Changed.{IsChanged};
ghost use Rattle.run_lists.specs.Spread.{expanded};
ghost use Rattle.doc_model.specs.Document.{HasPropertyMaps, IsFormedText};
ghost use Rattle.doc_columns.specs.Attached.{attached_of};
ghost use Rattle.doc_columns.specs.Changes.{HasOtherChp, HasOtherAttached, KeepsCharacters, KeepsMaps};
ghost use Rattle.doc_columns.specs.Columns.{item_of, items_of, bare_items};

use crate::Attached;
use crate::own::OwnColumns;
use crate::window::Window;
use doc_bits::Memory;
use plain_doc::Item;
use prop_map::PropMap;
use run_lists::{Change, Cursor, Run, Runs, Shared, seek};
use std::alloc::Global;
use std::marker::Model;

/// A text: its units, the properties of each as runs, and what is attached to each as runs. A text that was cut out of
/// another one may share its columns: its first change copies its part of them.
#[derive(Drop)]
pub struct Columns {
    kept: Storage,
}

/// Where the columns of a text are.
#[derive(Drop)]
pub(crate) enum Storage {
    Own(OwnColumns),
    Shared(Window),
}

impl Model for Columns {
    ghost use Rattle.std.specs.Prelude.{List};
    ghost use Rattle.std.specs.Coded.{coded_list};
    ghost use Rattle.doc_model.specs.declared.item.Item.{Item};
    ghost use Rattle.doc_model.specs.contracts.item.Item as item;
    ghost use Rattle.doc_columns.specs.Kept.{kept_items};

    ghost Value = { List Item };

    ghost coded = { coded_list item.the_row.coded };

    ghost view = { λ c. kept_items c.kept };
}

impl Columns {
    /// The text of no items.
    pub fn new(alloc: Global) -> Columns
        ensures { result ≡ [] }
    {
        Columns {
            kept: Storage::Own(OwnColumns::new(alloc)),
        }
    }

    /// The text of three columns. None is moved.
    pub fn from_parts(units: Vec<u16>, chps: Runs<PropMap>, attachments: Runs<Attached>) -> Columns
        requires few { length units.items < 2 ^ 32 }
        requires chps { length chps ≡ length units.items }
        requires attachments { length attachments ≡ length units.items }
        requires maps { All HasPropertyMaps (items_of units.items chps attachments) }
        ensures { result ≡ items_of units.items chps attachments }
    {
        Columns {
            kept: Storage::Own(OwnColumns::from_parts(units, chps, attachments)),
        }
    }

    /// The text of columns that it has for itself.
    pub(crate) fn from_own(own: OwnColumns) -> Columns
        ensures { result ≡ own }
    {
        Columns {
            kept: Storage::Own(own),
        }
    }

    /// The text of a window of columns.
    pub(crate) fn from_window(window: Window) -> Columns
        ensures { result ≡ window }
    {
        Columns {
            kept: Storage::Shared(window),
        }
    }

    /// The columns of the text, for itself: those of a window are copied.
    pub(crate) fn into_own(self) -> Result<OwnColumns, Memory>
        ensures { IfOk result (λ own. own ≡ self) }
    {
        match self.kept {
            Storage::Own(own) => Ok(own),
            Storage::Shared(window) => Ok(window.own()?),
        }
    }

    /// The number of items. Every text is well formed.
    pub fn len(&self) -> usize
        ensures len { result ≡ length self.now }
        ensures formed { IsFormedText self.now }
    {
        match &self.kept {
            Storage::Own(own) => own.len(),
            Storage::Shared(window) => window.len(),
        }
    }

    /// The units of the items.
    pub fn units(&self) -> &[u16]
        ensures { result.now ≡ map (λ item. item.unit) self.now }
    {
        match &self.kept {
            Storage::Own(own) => own.units(),
            Storage::Shared(window) => window.units(),
        }
    }

    /// The runs of their properties.
    pub fn chps(&self) -> &[Run<PropMap>]
        ensures { expanded result.now ≡ map (λ item. item.chp) self.now }
    {
        match &self.kept {
            Storage::Own(own) => own.chps(),
            Storage::Shared(window) => window.chps(),
        }
    }

    /// The runs of what is beside them.
    pub fn attachments(&self) -> &[Run<Attached>]
        ensures { expanded result.now ≡ map attached_of self.now }
    {
        match &self.kept {
            Storage::Own(own) => own.attachments(),
            Storage::Shared(window) => window.attachments(),
        }
    }

    /// The item at a place. Its maps are shared. It goes over the runs before it.
    pub fn item(&self, alloc: Global, place: usize) -> Result<Item, Memory>
        requires { place < length self.now }
        ensures { IfOk result (λ item. slice_get self.now place ≡ Some item) }
    {
        let chp = seek(self.chps(), &mut Cursor::new(), place).copy(alloc)?;
        let attached = seek(self.attachments(), &mut Cursor::new(), place).copy(alloc)?;
        Ok(item_with(self.units()[place], chp, attached))
    }

    /// The items from `from` to before `to`. Their maps are shared, and all of a window shares its columns.
    pub fn copy(&self, alloc: Global, from: usize, to: usize) -> Result<Columns, Memory>
        requires ordered { from ≤ to }
        requires within { to ≤ length self.now }
        ensures { IfOk result (λ copy. copy ≡ slice_range self.now from to) }
    {
        match &self.kept {
            Storage::Own(own) => Ok(Columns::from_own(own.copy(alloc, from, to)?)),
            Storage::Shared(window) => Ok(window.cut(alloc, from, to)?),
        }
    }

    /// The text with an item more.
    pub fn add(self, item: Item) -> Result<Columns, Memory>
        requires few { length self + 1 < 2 ^ 32 }
        requires maps { HasPropertyMaps item }
        ensures { IfOk result (λ made. made ≡ self ++ item ∷ []) }
    {
        let own = self.into_own()?;
        Ok(Columns::from_own(own.add(item)?))
    }

    /// The text with units more, which have the same properties and nothing beside them.
    pub fn add_units(self, more: &[u16], chp: PropMap) -> Result<Columns, Memory>
        requires few { length self + length more.now < 2 ^ 32 }
        requires map { IsPropertyMap character_groups chp }
        ensures { IfOk result (λ made. made ≡ self ++ bare_items chp more.now) }
    {
        let own = self.into_own()?;
        Ok(Columns::from_own(own.add_units(more, chp)?))
    }

    /// The text with `fresh` in place of the items from `from` to before `to`.
    pub fn splice(
        self,
        alloc: Global,
        from: usize,
        to: usize,
        fresh: Columns,
    ) -> Result<Columns, Memory>
        requires ordered { from ≤ to }
        requires within { to ≤ length self }
        requires few { length self + length fresh < 2 ^ 32 + (to - from) }
        ensures { IfOk result (λ made. made ≡ splice self from to fresh) }
    {
        let own = self.into_own()?;
        let more = fresh.into_own()?;
        Ok(Columns::from_own(own.splice(alloc, from, to, more)?))
    }

    /// Changes the properties of the items from `from` to before `to`, run by run.
    pub fn change_chps<C: Change<PropMap>>(
        self,
        alloc: Global,
        from: usize,
        to: usize,
        by: &C,
    ) -> Result<Columns, Memory>
        requires ordered { from ≤ to }
        requires within { to ≤ length self }
        requires kept { KeepsCharacters (C.becomes by.now) }
        ensures { IfOk result (IsChanged (HasOtherChp (C.becomes by.now)) from to self) }
    {
        let own = self.into_own()?;
        Ok(Columns::from_own(own.change_chps(alloc, from, to, by)?))
    }

    /// Changes what is beside the items from `from` to before `to`, run by run.
    pub fn change_attachments<C: Change<Attached>>(
        self,
        alloc: Global,
        from: usize,
        to: usize,
        by: &C,
    ) -> Result<Columns, Memory>
        requires ordered { from ≤ to }
        requires within { to ≤ length self }
        requires kept { KeepsMaps (C.becomes by.now) }
        ensures { IfOk result (IsChanged (HasOtherAttached (C.becomes by.now)) from to self) }
    {
        let own = self.into_own()?;
        Ok(Columns::from_own(own.change_attachments(alloc, from, to, by)?))
    }
}

/// The item of a unit, its properties and what is beside.
pub(crate) fn item_with(unit: u16, chp: PropMap, attached: Attached) -> Item
    ensures { result ≡ item_of unit chp attached }
{
    let Attached {
        fld,
        note,
        mark,
        sect,
    } = attached;
    Item {
        unit,
        fld,
        note,
        chp,
        mark,
        sect,
    }
}
