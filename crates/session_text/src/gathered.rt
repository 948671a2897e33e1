// Columns that are gathered text by text.
ghost use Rattle.std.specs.Prelude.{◌≡◌, ◌+◌, ◌^◌, ◌<◌, ◌++◌, ◌∷◌, [], length, map, IfOk, OnOk};
ghost use Rattle.run_lists.specs.Spread.{expanded, total_len};
ghost use Rattle.doc_model.specs.Collected.{joined_texts};
ghost use Rattle.full_save.specs.Text.{extra_mark as mark_behind, with_mark as marked_text};
ghost use Rattle.save_laws.specs.Slots.{story_slots};
ghost use Rattle.session_text.specs.WrittenAgain.{slot_item};

use crate::added::extra_mark;
use doc_bits::Memory;
use doc_columns::{Attached, ColumnTexts, Columns};
use prop_map::PropMap;
use run_lists::{Run, Runs, Shared};
use std::alloc::Global;
use std::marker::Model;

/// Texts so far, one behind the other, column by column.
#[derive(Drop)]
pub(crate) struct TextBuilder {
    units: Vec<u16>,
    chps: Runs<PropMap>,
    attachments: Runs<Attached>,
}

impl Model for TextBuilder {
    ghost use Rattle.std.specs.Prelude.{List};
    ghost use Rattle.std.specs.Coded.{coded_list};
    ghost use Rattle.doc_model.specs.declared.item.Item.{Item};
    ghost use Rattle.doc_model.specs.contracts.item.Item as item;
    ghost use Rattle.doc_columns.specs.Columns.{items_of, AreColumns};

    ghost Value = { List Item };

    ghost coded = { coded_list item.the_row.coded };

    ghost view = { λ g. items_of g.units.items g.chps g.attachments };

    ghost invariant = { λ g. AreColumns g.units.items g.chps g.attachments };
}

impl TextBuilder {
    /// No texts.
    pub(crate) fn new(alloc: Global) -> TextBuilder
        ensures { result ≡ [] }
    {
        TextBuilder {
            units: Vec::new(alloc),
            chps: Runs::new(alloc),
            attachments: Runs::new(alloc),
        }
    }

    /// A text more. Its maps are shared.
    fn with_text(self, alloc: Global, text: &Columns) -> Result<TextBuilder, Memory>
        requires { length self + length text.now < 2 ^ 32 }
        ensures { IfOk result (λ made. made ≡ self ++ text.now) }
    {
        let _len = text.len();
        let more_units = text.units();
        let more_chps = text.chps();
        let more_attachments = text.attachments();
        let TextBuilder {
            mut units,
            mut chps,
            mut attachments,
        } = self;
        units.extend_from_slice(more_units)?;
        put_runs(alloc, &mut chps, more_chps)?;
        put_runs(alloc, &mut attachments, more_attachments)?;
        Ok(TextBuilder {
            units,
            chps,
            attachments,
        })
    }

    /// Texts more.
    fn with_texts(self, alloc: Global, texts: &ColumnTexts) -> Result<TextBuilder, Memory>
        requires { length self + length (joined_texts texts.now) < 2 ^ 32 }
        ensures { IfOk result (λ made. made ≡ self ++ joined_texts texts.now) }
    {
        let mut made = self;
        for k in 0..texts.len() {
            made = made.with_text(alloc, texts.get(k))?;
        }
        Ok(made)
    }

    /// A mark of style 0 without properties more.
    fn with_mark(self, alloc: Global) -> Result<TextBuilder, Memory>
        requires { length self + 1 < 2 ^ 32 }
        ensures { IfOk result (λ made. made ≡ self ++ mark_behind ∷ []) }
    {
        let mark = Columns::new(alloc).add(extra_mark(alloc))?;
        self.with_text(alloc, &mark)
    }

    /// The texts of a story more, and the mark behind them where there is one.
    pub(crate) fn with_story(
        self,
        alloc: Global,
        texts: &ColumnTexts,
        end: bool,
    ) -> Result<TextBuilder, Memory>
        requires { length self + length (story_slots texts.now end) < 2 ^ 32 }
        ensures { IfOk result (λ made. made ≡ self ++ map slot_item (story_slots texts.now end)) }
    {
        let made = self.with_texts(alloc, texts)?;
        if end {
            return made.with_mark(alloc);
        }
        Ok(made)
    }

    /// A mark more where there are items.
    pub(crate) fn with_last(self, alloc: Global) -> Result<TextBuilder, Memory>
        requires { length self + 1 < 2 ^ 32 }
        ensures { IfOk result (λ made. made ≡ marked_text self) }
    {
        let count = self.units.len();
        if count == 0 {
            return Ok(self);
        }
        self.with_mark(alloc)
    }

    /// The text of the columns.
    pub(crate) fn finish(self) -> Columns
        ensures { result ≡ self }
    {
        let TextBuilder {
            units,
            chps,
            attachments,
        } = self;
        Columns::from_parts(units, chps, attachments)
    }
}

/// Puts copies of the values of runs last.
pub(crate) fn put_runs<T: Shared>(
    alloc: Global,
    out: &mut Runs<T>,
    runs: &[Run<T>],
) -> Result<(), Memory>
    requires { length out.old + total_len runs.now < 2 ^ 32 }
    ensures { OnOk result (out.new ≡ out.old ++ expanded runs.now) }
{
    for run in runs {
        let value = run.value.copy(alloc)?;
        out.add(run.count, value)?;
    }
    Ok(())
}

/// The items of texts, one text after the other.
pub(crate) fn join_texts(alloc: Global, texts: &ColumnTexts) -> Result<Columns, Memory>
    requires { length (joined_texts texts.now) < 2 ^ 32 }
    ensures { IfOk result (λ items. items ≡ joined_texts texts.now) }
{
    let made = TextBuilder::new(alloc).with_texts(alloc, texts)?;
    Ok(made.finish())
}
