// The texts of a joined document, run by run.
ghost use Rattle.std.specs.Prelude.{◌≡◌, ◌+◌, ◌^◌, ◌<◌, ◌≤◌, ◌++◌, length, map, replicate, drop, All, option_map};
ghost use Rattle.std.specs.Prelude.{IfOk, OnOk};
ghost use Rattle.std.specs.Option.{ForSome};
ghost use Rattle.prop_map.specs.Formed.{IsPropertyMap, character_groups};
ghost use Rattle.run_lists.specs.Spread.{expanded, total_len};
ghost use Rattle.doc_join.specs.Settings.{renumbered_chp};
ghost use Rattle.doc_join.specs.Texts.{renumbered_mark, renumbered_text, renumbered_texts};
ghost use Rattle.doc_join.specs.Texts.{section_ended, joined_main, texts_of_both, HaveOwnStyles, AllHaveOwnStyles};
ghost use Rattle.doc_join.specs.JoinedColumns.{renumbered_attached, HasOwnMark};

use crate::kept_maps::KeptMaps;
use doc_bits::Memory;
use doc_columns::{Attached, ColumnTexts, Columns};
use plain_doc::{Mark, copy_section};
use prop_map::PropMap;
use run_lists::{Run, Runs};
use std::alloc::Global;
use text_codes::SECTION_MARK;

/// The main texts one behind the other. The first one's last section ends as one that is not the last.
pub(crate) fn join_main(
    alloc: Global,
    first: &Columns,
    first_maps: &mut KeptMaps,
    second: &Columns,
    second_maps: &mut KeptMaps,
) -> Result<Columns, Memory>
    requires some { 0 < length first.now }
    requires few { length first.now + length second.now < 2 ^ 32 }
    requires of_first { HaveOwnStyles first_maps.old.numbers first.now }
    requires of_second { HaveOwnStyles second_maps.old.numbers second.now }
    ensures made { IfOk result
        (λ made. made ≡ joined_main first_maps.old.numbers first.now second_maps.old.numbers second.now) }
    ensures first_maps { first_maps.new.numbers ≡ first_maps.old.numbers }
    ensures second_maps { second_maps.new.numbers ≡ second_maps.old.numbers }
{
    let front = first_maps.text(first)?;
    let ended = end_section(alloc, front)?;
    let back = second_maps.text(second)?;
    let len = ended.len();
    let made = ended.splice(alloc, len, len, back)?;
    Ok(made)
}

/// Makes the last item end a section that is not the last one.
fn end_section(alloc: Global, text: Columns) -> Result<Columns, Memory>
    requires { 0 < length text }
    ensures { IfOk result (λ made. made ≡ section_ended text) }
{
    let last = text.len() - 1;
    let mut item = text.item(alloc, last)?;
    item.unit = SECTION_MARK;
    let end = Columns::new(alloc).add(item)?;
    let made = text.splice(alloc, last, last + 1, end)?;
    Ok(made)
}

/// The texts of the first document, and then those of the second from a number on.
pub(crate) fn join_texts(
    alloc: Global,
    from: usize,
    first: &ColumnTexts,
    first_maps: &mut KeptMaps,
    second: &ColumnTexts,
    second_maps: &mut KeptMaps,
) -> Result<ColumnTexts, Memory>
    requires few { length first.now + length second.now < 2 ^ 32 }
    requires from { from ≤ length second.now }
    requires of_first { AllHaveOwnStyles first_maps.old.numbers first.now }
    requires of_second { AllHaveOwnStyles second_maps.old.numbers second.now }
    ensures made { IfOk result
        (λ made. made ≡ texts_of_both from first_maps.old.numbers first.now second_maps.old.numbers second.now) }
    ensures first_maps { first_maps.new.numbers ≡ first_maps.old.numbers }
    ensures second_maps { second_maps.new.numbers ≡ second_maps.old.numbers }
{
    let mut made = ColumnTexts::new(alloc);
    first_maps.add_texts(first, 0, &mut made)?;
    second_maps.add_texts(second, from, &mut made)?;
    Ok(made)
}

impl KeptMaps {
    /// Puts the texts from a number on behind others, with their styles renumbered.
    fn add_texts(
        &mut self,
        texts: &ColumnTexts,
        from: usize,
        made: &mut ColumnTexts,
    ) -> Result<(), Memory>
        requires few { length made.old + length texts.now < 2 ^ 32 }
        requires from { from ≤ length texts.now }
        requires styles { AllHaveOwnStyles self.old.numbers texts.now }
        ensures made { OnOk result (made.new ≡ made.old ++ renumbered_texts self.old.numbers (drop from texts.now)) }
        ensures numbers { self.new.numbers ≡ self.old.numbers }
    {
        for i in from..texts.len() {
            made.add(self.text(texts.get(i))?)?;
        }
        Ok(())
    }

    /// The text with its styles renumbered. It goes over the runs, and its units are copied.
    fn text(&mut self, text: &Columns) -> Result<Columns, Memory>
        requires { HaveOwnStyles self.old.numbers text.now }
        ensures made { IfOk result (λ made. made ≡ renumbered_text self.old.numbers text.now) }
        ensures numbers { self.new.numbers ≡ self.old.numbers }
    {
        let _len = text.len();
        let units = Vec::from_slice(self.alloc, text.units())?;
        let chp_runs = text.chps();
        let chps = self.chps(chp_runs)?;
        let attached_runs = text.attachments();
        let attachments = self.attachments(attached_runs)?;
        Ok(Columns::from_parts(units, chps, attachments))
    }

    /// The properties of characters, with the styles renumbered that they name.
    fn chps(&mut self, runs: &[Run<PropMap>]) -> Result<Runs<PropMap>, Memory>
        requires few { total_len runs.now < 2 ^ 32 }
        requires maps { All (IsPropertyMap character_groups) (expanded runs.now) }
        ensures made { IfOk result (λ made. made ≡ map (renumbered_chp self.old.numbers) (expanded runs.now)) }
        ensures numbers { self.new.numbers ≡ self.old.numbers }
    {
        let mut made = Runs::new(self.alloc);
        for run in runs {
            self.add_chps(run, &mut made)?;
        }
        Ok(made)
    }

    /// Adds the properties of a run of characters, with the styles renumbered that they name.
    fn add_chps(&mut self, run: &Run<PropMap>, made: &mut Runs<PropMap>) -> Result<(), Memory>
        requires few { length made.old + run.now.count < 2 ^ 32 }
        requires map { 0 < run.now.count → IsPropertyMap character_groups run.now.value }
        ensures made { OnOk result
            (made.new ≡ made.old ++ replicate run.now.count (renumbered_chp self.old.numbers run.now.value)) }
        ensures numbers { self.new.numbers ≡ self.old.numbers }
    {
        if run.count == 0 {
            return Ok(());
        }
        made.add(run.count, self.map(&run.value)?)?;
        Ok(())
    }

    /// What is beside units, with the styles of marks renumbered.
    fn attachments(&self, runs: &[Run<Attached>]) -> Result<Runs<Attached>, Memory>
        requires few { total_len runs.now < 2 ^ 32 }
        requires styles { All (HasOwnMark self.now.numbers) (expanded runs.now) }
        ensures { IfOk result (λ made. made ≡ map (renumbered_attached self.now.numbers) (expanded runs.now)) }
    {
        let mut made = Runs::new(self.alloc);
        for run in runs {
            self.add_attachments(run, &mut made)?;
        }
        Ok(made)
    }

    /// Adds what is attached to the units of a run, with the styles of marks renumbered.
    fn add_attachments(&self, run: &Run<Attached>, made: &mut Runs<Attached>) -> Result<(), Memory>
        requires few { length made.old + run.now.count < 2 ^ 32 }
        requires style { 0 < run.now.count → HasOwnMark self.now.numbers run.now.value }
        ensures { OnOk result
            (made.new ≡ made.old ++ replicate run.now.count (renumbered_attached self.now.numbers run.now.value)) }
    {
        if run.count == 0 {
            return Ok(());
        }
        made.add(run.count, self.attached(&run.value)?)?;
        Ok(())
    }

    /// What is beside a unit, with the style of its mark renumbered.
    fn attached(&self, attached: &Attached) -> Result<Attached, Memory>
        requires { HasOwnMark self.now.numbers attached.now }
        ensures { IfOk result (λ made. made ≡ renumbered_attached self.now.numbers attached.now) }
    {
        Ok(Attached {
            fld: attached.fld,
            note: attached.note,
            mark: self.mark(&attached.mark)?,
            sect: copy_section(self.alloc, &attached.sect)?,
        })
    }

    /// The mark, where there is one, with its style renumbered.
    fn mark(&self, mark: &Option<Mark>) -> Result<Option<Mark>, Memory>
        requires { ForSome mark.now (λ mark. mark.istd < self.now.numbers.slots) }
        ensures { IfOk result (λ made. made ≡ option_map (renumbered_mark self.now.numbers) mark.now) }
    {
        match mark {
            None => Ok(None),
            Some(mark) => Ok(Some(Mark {
                istd: mark.istd + self.numbers.before,
                pap: mark.pap.copy(self.alloc)?,
            })),
        }
    }
}
