// The Sepxes that a save writes, and the Seds of all sections.
ghost use Rattle.std.specs.Prelude.{◌≡◌, ◌≤◌, ◌+◌, ◌*◌, ◌^◌, ◌<◌, ◌++◌, length, All, IsSome, OnOk, IfOk};
ghost use Rattle.std.specs.Option.{ForSome};
ghost use Rattle.doc_model.specs.Collected.{sections_of};
ghost use Rattle.full_save.specs.Sections.{sepx_bytes, fc_sepx, HasSavableSection, IsSavableSection};
ghost use Rattle.fast_save_layout.specs.PlannedSections.{new_sepx, planned_fc, planned_sepxes, planned_seds};
ghost use Rattle.fast_save_layout.specs.PlannedSections.{PlannedGoOn};

use doc_bits::{Bytes, Memory};
use doc_columns::{Attached, Columns};
use doc_parts::{NO_SEPX, Seds};
use full_save::push_counted;
use prop_map::PropMap;
use run_lists::Run;
use std::alloc::Global;

/// The places of the properties of sections, or none where they are still to be written, in a stream that has `base`
/// bytes before those that are added.
#[derive(Drop)]
pub(crate) struct SectionPlaces<'a> {
    pub(crate) places: &'a [Option<u32>],
    pub(crate) base: u32,
}

/// The sections of a main text so far: how many there are, where the next one begins, and the Seds.
#[derive(Drop)]
struct SectionWriter {
    number: usize,
    start: u32,
    seds: Seds,
}

/// Appends the Sepxes of the sections that have no place yet. Answers the Seds of all sections.
pub(crate) fn append_sections(
    alloc: Global,
    out: &mut Bytes,
    main: &Columns,
    plan: &SectionPlaces<'_>,
) -> Result<Seds, Memory>
    requires sections { All HasSavableSection main.now }
    requires count { length plan.now.places.now ≡ length (sections_of main.now) }
    requires few { length main.now < 2 ^ 20 }
    requires room { plan.now.base + length out.old < 2 ^ 31 }
    ensures bytes { OnOk result (out.new ≡ out.old ++ planned_sepxes plan.now.places.now (sections_of main.now)) }
    ensures seds { IfOk result
        (λ seds. seds ≡ planned_seds 0 (plan.now.base + length out.old) plan.now.places.now (sections_of main.now)) }
{
    let mut sections = SectionWriter {
        number: 0,
        start: 0,
        seds: Seds::new(alloc),
    };
    let mut place = 0;
    for run in main.attachments() {
        sections.add_run(alloc, out, place, run, plan)?;
        place += run.count;
    }
    let SectionWriter { seds, .. } = sections;
    Ok(seds)
}

impl SectionWriter {
    /// Goes on by the sections that end in a run, which begins at a place.
    fn add_run(
        &mut self,
        alloc: Global,
        out: &mut Bytes,
        place: u32,
        run: &Run<Attached>,
        plan: &SectionPlaces<'_>,
    ) -> Result<(), Memory>
        requires sections { 0 < run.now.count → ForSome run.now.value.sect IsSavableSection }
        requires few { place + run.now.count < 2 ^ 20 }
        requires places { IsSome run.now.value.sect → self.old.number + run.now.count ≤ length plan.now.places.now }
        requires room { plan.now.base + length out.old + 504 * run.now.count < 2 ^ 32 }
        ensures { OnOk result (PlannedGoOn run.now place plan.now
            (record { number = self.old.number; start = self.old.start; out = out.old; seds = self.old.seds })
            (record { number = self.new.number; start = self.new.start; out = out.new; seds = self.new.seds })) }
    {
        let Some(properties) = &run.value.sect else {
            return Ok(());
        };
        for cp in place..place + run.count {
            let fc = append_section(alloc, out, properties, plan.places[self.number], plan.base)?;
            self.seds.add(self.start, fc)?;
            self.start = cp + 1;
            self.number += 1;
        }
        Ok(())
    }
}

/// Appends the Sepx of a section that has no place yet. Answers its fcSepx.
fn append_section(
    alloc: Global,
    out: &mut Bytes,
    properties: &PropMap,
    place: Option<u32>,
    base: u32,
) -> Result<u32, Memory>
    requires section { IsSavableSection properties.now }
    requires room { base + length out.old < 2 ^ 32 }
    ensures bytes { OnOk result (out.new ≡ out.old ++ new_sepx place properties.now) }
    ensures place { IfOk result (λ fc. fc ≡ planned_fc (base + length out.old) place properties.now) }
{
    match place {
        Some(fc) => Ok(fc),
        None => append_sepx(alloc, out, properties, base),
    }
}

/// Appends the Sepx of a section that has properties. Answers its fcSepx.
fn append_sepx(
    alloc: Global,
    out: &mut Bytes,
    properties: &PropMap,
    base: u32,
) -> Result<u32, Memory>
    requires section { IsSavableSection properties.now }
    requires room { base + length out.old < 2 ^ 32 }
    ensures bytes { OnOk result (out.new ≡ out.old ++ sepx_bytes properties.now) }
    ensures place { IfOk result (λ fc. fc ≡ fc_sepx (base + length out.old) properties.now) }
{
    if properties.entries().is_empty() {
        return Ok(NO_SEPX);
    }
    let place = base + out.as_slice().len() as u32;
    let list = properties.print(alloc)?;
    push_counted(out, list.as_slice())?;
    Ok(place)
}
