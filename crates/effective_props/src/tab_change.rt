// [MS-DOC] PChgTabsPapxOperand.
ghost use Rattle.std.specs.Prelude.{◌≡◌, ◌<◌, MatchOption};
ghost use Rattle.effective_props.specs.TabChange.{IsTabChange, deleted_count, deleted_position, added_count};
ghost use Rattle.effective_props.specs.TabChange.{added_position, added_kind};

use crate::Tab;
use doc_bits::get16;
use std::marker::Model;

/// A change of tab stops, over the bytes of the value. Nothing is copied.
#[derive(Drop)]
pub(crate) struct TabChange<'a> {
    value: &'a [u8],
    deleted: usize,
    added: usize,
}

impl<'a> Model for TabChange<'a> {
    ghost use Rattle.std.specs.Prelude.{List, ℕ};
    ghost use Rattle.effective_props.specs.TabForm.{HasParts};

    ghost Value = { List ℕ };

    ghost view = { λ c. c.value.now };

    ghost invariant = { λ c. HasParts c.value.now c.deleted c.added };
}

impl<'a> TabChange<'a> {
    /// Sees the value as a change of tab stops, where it has the form of one.
    pub(crate) fn of(value: &'a [u8]) -> Option<TabChange<'a>>
        ensures { MatchOption result (¬ (IsTabChange value.now))
            (λ change. (change ≡ value.now) × IsTabChange value.now) }
    {
        let deleted = *value.first()? as usize;
        let place = 1 + 2 * deleted;
        if value.len() <= place {
            return None;
        }
        let added = value[place] as usize;
        if value.len() != place + 1 + 3 * added {
            return None;
        }
        Some(TabChange {
            value,
            deleted,
            added,
        })
    }

    /// How many positions are deleted.
    pub(crate) fn deleted(&self) -> usize
        ensures { result ≡ deleted_count self.now }
    {
        self.deleted
    }

    /// How many positions are added.
    pub(crate) fn added(&self) -> usize
        ensures { result ≡ added_count self.now }
    {
        self.added
    }

    /// The deleted position with this number.
    pub(crate) fn deleted_position(&self, i: usize) -> i16
        requires { i < deleted_count self.now }
        ensures { result ≡ deleted_position self.now i }
    {
        get16(self.value, 1 + 2 * i).cast_signed()
    }

    /// The added stop with this number.
    pub(crate) fn added_tab(&self, i: usize) -> Tab
        requires { i < added_count self.now }
        ensures at { result.at ≡ added_position self.now i }
        ensures kind { result.kind ≡ added_kind self.now i }
    {
        let positions = 2 + 2 * self.deleted;
        let kinds = positions + 2 * self.added;
        Tab {
            at: get16(self.value, positions + 2 * i).cast_signed(),
            kind: self.value[kinds + i],
        }
    }
}
