// [MS-DOC] Sepx and Sed of the sections of a main text.
ghost use Rattle.std.specs.Prelude.{◌≡◌, ◌+◌, ◌*◌, ◌^◌, ◌<◌, ◌++◌, length, All, OnOk, IfOk};
ghost use Rattle.std.specs.Option.{ForSome};
ghost use Rattle.style_sheet.specs.Counted.{written_counted};
ghost use Rattle.doc_model.specs.Collected.{sections_of};
ghost use Rattle.full_save.specs.Sections.{sepx_bytes, sepxes, fc_sepx, seds_from, HasSavableSection, IsSavableSection};
ghost use Rattle.full_save.specs.Sections.{SepxesGoOn};

use doc_bits::{Bytes, Memory};
use doc_columns::{Attached, Columns};
use doc_parts::{NO_SEPX, Seds};
use prop_map::PropMap;
use run_lists::Run;
use std::alloc::Global;

/// The sections of a main text so far: where the next one begins, and the Seds.
#[derive(Drop)]
struct SedsSoFar {
    start: u32,
    seds: Seds,
}

/// Appends the Sepxes of the sections to a stream that has `base` bytes before those of `out`. Answers the Seds.
pub(crate) fn append_sepxes(
    alloc: Global,
    out: &mut Bytes,
    main: &Columns,
    base: u32,
) -> Result<Seds, Memory>
    requires sections { All HasSavableSection main.now }
    requires few { length main.now < 2 ^ 20 }
    requires room { base + length out.old < 2 ^ 31 }
    ensures bytes { OnOk result (out.new ≡ out.old ++ sepxes (sections_of main.now)) }
    ensures seds { IfOk result (λ seds. seds ≡ seds_from 0 (base + length out.old) (sections_of main.now)) }
{
    let mut sections = SedsSoFar {
        start: 0,
        seds: Seds::new(alloc),
    };
    let mut place = 0;
    for run in main.attachments() {
        sections.add_run(alloc, out, place, run, base)?;
        place += run.count;
    }
    let SedsSoFar { seds, .. } = sections;
    Ok(seds)
}

impl SedsSoFar {
    /// Goes on by the sections that end in a run, which begins at a place.
    fn add_run(
        &mut self,
        alloc: Global,
        out: &mut Bytes,
        place: u32,
        run: &Run<Attached>,
        base: u32,
    ) -> Result<(), Memory>
        requires sections { 0 < run.now.count → ForSome run.now.value.sect IsSavableSection }
        requires few { place + run.now.count < 2 ^ 20 }
        requires room { base + length out.old + 504 * run.now.count < 2 ^ 32 }
        ensures { OnOk result
            (SepxesGoOn run.now place base (record { start = self.old.start; out = out.old; seds = self.old.seds })
            (record { start = self.new.start; out = out.new; seds = self.new.seds })) }
    {
        let Some(properties) = &run.value.sect else {
            return Ok(());
        };
        for cp in place..place + run.count {
            let fc = append_sepx(alloc, out, properties, base)?;
            self.seds.add(self.start, fc)?;
            self.start = cp + 1;
        }
        Ok(())
    }
}

/// Appends the Sepx of a section that has properties. Answers its fcSepx.
fn append_sepx(
    alloc: Global,
    out: &mut Bytes,
    properties: &PropMap,
    base: u32,
) -> Result<u32, Memory>
    requires section { IsSavableSection properties.now }
    requires room { base + length out.old < 2 ^ 32 }
    ensures bytes { OnOk result (out.new ≡ out.old ++ sepx_bytes properties.now) }
    ensures place { IfOk result (λ place. place ≡ fc_sepx (base + length out.old) properties.now) }
{
    if properties.entries().is_empty() {
        return Ok(NO_SEPX);
    }
    let place = base + out.as_slice().len() as u32;
    let list = properties.print(alloc)?;
    push_counted(out, list.as_slice())?;
    Ok(place)
}

/// Appends a count, the bytes, and a zero where they are odd.
pub fn push_counted(out: &mut Bytes, list: &[u8]) -> Result<(), Memory>
    requires { length list.now < 65536 }
    ensures { OnOk result (out.new ≡ out.old ++ written_counted list.now) }
{
    out.push16(list.len() as u16)?;
    out.push_all(list)?;
    if list.len() % 2 != 0 {
        out.push_all(&[0])?;
    }
    Ok(())
}
