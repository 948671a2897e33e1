// Texts by columns that are copied in part, or of which a column is changed.
ghost use Rattle.std.specs.Prelude.{◌≡◌, ◌≤◌, length, slice_range, IfOk};
ghost use Rattle.run_lists.specs.Changed.{IsChanged};
ghost use Rattle.doc_columns.specs.Changes.{HasOtherChp, HasOtherAttached, KeepsCharacters, KeepsMaps};

use crate::Attached;
use crate::own::OwnColumns;
use crate::ranges::are_ranged;
use doc_bits::Memory;
use prop_map::PropMap;
use run_lists::Change;
use std::alloc::Global;

impl OwnColumns {
    /// The items from `from` to before `to`. Their maps are shared.
    pub(crate) fn copy(&self, alloc: Global, from: usize, to: usize) -> Result<OwnColumns, Memory>
        requires ordered { from ≤ to }
        requires within { to ≤ length self.now }
        ensures { IfOk result (λ copy. copy ≡ slice_range self.now from to) }
    {
        let all = self.units();
        let units = Vec::from_slice(alloc, &all[from..to])?;
        let chps = self.chps.copy(alloc, from, to)?;
        let attachments = self.attachments.copy(alloc, from, to)?;
        Ok(OwnColumns {
            units,
            chps,
            attachments,
        })
    }

    /// Changes the properties of the items from `from` to before `to`, run by run.
    pub(crate) fn change_chps<C: Change<PropMap>>(
        self,
        alloc: Global,
        from: usize,
        to: usize,
        by: &C,
    ) -> Result<OwnColumns, Memory>
        requires ordered { from ≤ to }
        requires within { to ≤ length self }
        requires kept { KeepsCharacters (C.becomes by.now) }
        ensures { IfOk result (IsChanged (HasOtherChp (C.becomes by.now)) from to self) }
    {
        let OwnColumns {
            units,
            mut chps,
            attachments,
        } = self;
        chps.change(alloc, from, to, by)?;
        Ok(OwnColumns {
            units,
            chps,
            attachments,
        })
    }

    /// Changes what is beside the items from `from` to before `to`, run by run.
    pub(crate) fn change_attachments<C: Change<Attached>>(
        self,
        alloc: Global,
        from: usize,
        to: usize,
        by: &C,
    ) -> Result<OwnColumns, Memory>
        requires ordered { from ≤ to }
        requires within { to ≤ length self }
        requires kept { KeepsMaps (C.becomes by.now) }
        ensures { IfOk result (IsChanged (HasOtherAttached (C.becomes by.now)) from to self) }
    {
        let OwnColumns {
            units,
            chps,
            mut attachments,
        } = self;
        attachments.change(alloc, from, to, by)?;
        are_ranged(attachments.as_runs());
        Ok(OwnColumns {
            units,
            chps,
            attachments,
        })
    }
}
