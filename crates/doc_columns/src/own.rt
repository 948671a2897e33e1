// A text by columns that no other text has. Contracts see the list of its items.
ghost use Rattle.std.specs.Prelude.{◌≡◌, ◌+◌, ◌-◌, ◌^◌, ◌<◌, ◌≤◌};
ghost use Rattle.std.specs.Prelude.{[], ◌∷◌, ◌++◌, length, map, All, IfOk};
ghost use Rattle.std.specs.List.{splice};
ghost use Rattle.prop_map.specs.Formed.{IsPropertyMap, character_groups};
ghost use Rattle.run_lists.specs.Spread.{expanded};
ghost use Rattle.doc_model.specs.Document.{HasPropertyMaps, IsFormedText};
ghost use Rattle.doc_columns.specs.Attached.{attached_of};
ghost use Rattle.doc_columns.specs.Columns.{item_of, items_of, bare_items};

use crate::Attached;
use crate::ranges::{are_ranged, are_words, is_ranged};
use doc_bits::{Memory, splice_list};
use plain_doc::{Item, is_word};
use prop_map::PropMap;
use run_lists::{Run, Runs};
use std::alloc::Global;
use std::marker::Model;

/// A text: its units, the properties of each as runs, and what is beside each as runs.
#[derive(Drop)]
pub(crate) struct OwnColumns {
    pub(crate) units: Vec<u16>,
    pub(crate) chps: Runs<PropMap>,
    pub(crate) attachments: Runs<Attached>,
}

impl Model for OwnColumns {
    ghost use Rattle.std.specs.Prelude.{List};
    ghost use Rattle.std.specs.Coded.{coded_list};
    ghost use Rattle.doc_model.specs.declared.item.Item.{Item};
    ghost use Rattle.doc_model.specs.contracts.item.Item as item;
    ghost use Rattle.doc_columns.specs.Columns.{items_of, AreColumns};

    ghost Value = { List Item };

    ghost coded = { coded_list item.the_row.coded };

    ghost view = { λ c. items_of c.units.items c.chps c.attachments };

    ghost invariant = { λ c. AreColumns c.units.items c.chps c.attachments };
}

impl OwnColumns {
    /// The text of no items.
    pub(crate) fn new(alloc: Global) -> OwnColumns
        ensures { result ≡ [] }
    {
        OwnColumns {
            units: Vec::new(alloc),
            chps: Runs::new(alloc),
            attachments: Runs::new(alloc),
        }
    }

    /// The text of three columns. None is moved.
    pub(crate) fn from_parts(
        units: Vec<u16>,
        chps: Runs<PropMap>,
        attachments: Runs<Attached>,
    ) -> OwnColumns
        requires few { length units.items < 2 ^ 32 }
        requires chps { length chps ≡ length units.items }
        requires attachments { length attachments ≡ length units.items }
        requires maps { All HasPropertyMaps (items_of units.items chps attachments) }
        ensures { result ≡ items_of units.items chps attachments }
    {
        are_words(&units);
        are_ranged(attachments.as_runs());
        OwnColumns {
            units,
            chps,
            attachments,
        }
    }

    /// The number of items. Every text is well formed.
    pub(crate) fn len(&self) -> usize
        ensures len { result ≡ length self.now }
        ensures formed { IsFormedText self.now }
    {
        self.units.len()
    }

    /// The units of the items.
    pub(crate) fn units(&self) -> &[u16]
        ensures { result.now ≡ map (λ item. item.unit) self.now }
    {
        &self.units
    }

    /// The runs of their properties.
    pub(crate) fn chps(&self) -> &[Run<PropMap>]
        ensures { expanded result.now ≡ map (λ item. item.chp) self.now }
    {
        self.chps.as_runs()
    }

    /// The runs of what is beside them.
    pub(crate) fn attachments(&self) -> &[Run<Attached>]
        ensures { expanded result.now ≡ map attached_of self.now }
    {
        self.attachments.as_runs()
    }

    /// The text with an item more.
    pub(crate) fn add(self, item: Item) -> Result<OwnColumns, Memory>
        requires few { length self + 1 < 2 ^ 32 }
        requires maps { HasPropertyMaps item }
        ensures { IfOk result (λ made. made ≡ self ++ item ∷ []) }
    {
        let OwnColumns {
            mut units,
            mut chps,
            mut attachments,
        } = self;
        let (unit, chp, attached) = parts_of(item);
        is_word(unit);
        is_ranged(&attached);
        units.push(unit)?;
        chps.add(1, chp)?;
        attachments.add(1, attached)?;
        Ok(OwnColumns {
            units,
            chps,
            attachments,
        })
    }

    /// The text with units more, which have the same properties and nothing beside them.
    pub(crate) fn add_units(self, more: &[u16], chp: PropMap) -> Result<OwnColumns, Memory>
        requires few { length self + length more.now < 2 ^ 32 }
        requires map { IsPropertyMap character_groups chp }
        ensures { IfOk result (λ made. made ≡ self ++ bare_items chp more.now) }
    {
        let OwnColumns {
            mut units,
            mut chps,
            mut attachments,
        } = self;
        are_words(more);
        units.extend_from_slice(more)?;
        chps.add(more.len() as u32, chp)?;
        attachments.add(more.len() as u32, Attached::none())?;
        Ok(OwnColumns {
            units,
            chps,
            attachments,
        })
    }

    /// The text with `fresh` in place of the items from `from` to before `to`.
    pub(crate) fn splice(
        self,
        alloc: Global,
        from: usize,
        to: usize,
        fresh: OwnColumns,
    ) -> Result<OwnColumns, Memory>
        requires ordered { from ≤ to }
        requires within { to ≤ length self }
        requires few { length self + length fresh < 2 ^ 32 + (to - from) }
        ensures { IfOk result (λ made. made ≡ splice self from to fresh) }
    {
        let OwnColumns {
            mut units,
            mut chps,
            mut attachments,
        } = self;
        let OwnColumns {
            units: more_units,
            chps: more_chps,
            attachments: more_attachments,
        } = fresh;
        splice_list(&mut units, from, to, more_units)?;
        chps.splice(alloc, from, to, more_chps)?;
        attachments.splice(alloc, from, to, more_attachments)?;
        Ok(OwnColumns {
            units,
            chps,
            attachments,
        })
    }
}

/// What an item has beside its unit and its properties, with these.
fn parts_of(item: Item) -> (u16, PropMap, Attached)
    ensures { item ≡ item_of result.0 result.1 result.2 }
{
    let Item {
        unit,
        fld,
        note,
        chp,
        mark,
        sect,
    } = item;
    (
        unit,
        chp,
        Attached {
            fld,
            note,
            mark,
            sect,
        },
    )
}
