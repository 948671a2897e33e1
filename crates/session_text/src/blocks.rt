// The blocks of added text that the changes of a command put.
ghost use Rattle.std.specs.Prelude.{◌≡◌, ◌+◌, ◌*◌, ◌^◌, ◌<◌, ◌≤◌, [], length, IfOk, OnOk};
ghost use Rattle.plain_doc.specs.Sound.{IsSound};
ghost use Rattle.session_text.specs.EditSteps.{ArePutSteps};
ghost use Rattle.session_text.specs.Puts.{HavePuts};

use crate::added::Added;
use crate::session_text::TextSplice;
use crate::stories::Stories;
use crate::text_changes::step_of;
use doc_bits::Memory;
use doc_columns::ColumnDocument;
use doc_patch::Changes;
use save_laws::Ends;
use std::alloc::Global;

/// The splices that changes are, and the added text with their blocks.
#[derive(Drop)]
pub(crate) struct Blocks {
    pub(crate) splices: Vec<TextSplice>,
    pub(crate) added: Added,
}

/// The blocks of changes that are no modifiers, behind added text.
pub(crate) fn blocks_of(
    alloc: Global,
    added: &Added,
    document: &ColumnDocument,
    ends: Ends,
    changes: &Changes,
) -> Result<Blocks, Memory>
    requires sound { IsSound document.now }
    requires steps { ArePutSteps document.now document.now changes.now }
    requires few { length changes.now ≤ 3 }
    requires room { added.now.base + (2 * length added.now.items + 3000000) < 2 ^ 32 }
    ensures puts { IfOk result (λ blocks.
        HavePuts document.now ends changes.now added.now blocks.added blocks.splices.items) }
    ensures base { IfOk result (λ blocks. blocks.added.base ≡ added.now.base) }
{
    let grown = added.copy(alloc)?;
    let mut blocks = Blocks {
        splices: Vec::new(alloc),
        added: grown,
    };
    blocks.put(alloc, document, ends, changes)?;
    Ok(blocks)
}

impl Blocks {
    /// Puts the blocks of changes behind the added text. There are no splices before.
    fn put(
        &mut self,
        alloc: Global,
        document: &ColumnDocument,
        ends: Ends,
        changes: &Changes,
    ) -> Result<(), Memory>
        requires sound { IsSound document.now }
        requires steps { ArePutSteps document.now document.now changes.now }
        requires few { length changes.now ≤ 3 }
        requires none { self.old.splices.items ≡ [] }
        requires room { self.old.added.base + (2 * length self.old.added.items + 3000000) < 2 ^ 32 }
        ensures puts { OnOk result
            (HavePuts document.now ends changes.now self.old.added self.new.added self.new.splices.items) }
        ensures base { OnOk result (self.new.added.base ≡ self.old.added.base) }
    {
        let mut stories = Stories::of(document, ends);
        for k in 0..changes.len() {
            let step = step_of(alloc, document, stories, changes.get(k))?;
            let block = self.added.append(alloc, step.items, step.marks)?;
            self.splices.push(TextSplice {
                from: step.from,
                to: step.to,
                block,
                ends: step.after.ends,
            })?;
            stories = step.after;
        }
        Ok(())
    }
}
