// The properties of the sections.
ghost use Rattle.std.specs.Prelude.{◌≡◌, ◌≢◌, ◌<◌, ℕ, List, length, slice_get, Some, IfOk, OnOk};
ghost use Rattle.doc_bits.specs.Rules.{Hold, Nowhere};
ghost use Rattle.sprm_table.specs.Sprm.{IsAcceptedList};
ghost use Rattle.prop_map.specs.Formed.{IsPropertyMap};
ghost use Rattle.file_rules.specs.FileRules.{doc_source_of};
ghost use Rattle.file_rules.specs.SectionRules.{HasSections, HasSepxFault, LacksSepx, rules_of_sections, sepx_list};
ghost use Rattle.prop_map.specs.Formed.{section_groups};
ghost use Rattle.overlapping_grpprls.specs.Keeping.{IsWalkedMap};
ghost use Rattle.doc_read.specs.Sections.{AreMetSections, AreSectionMaps, IsSectionProperties};

use doc_bits::Memory;
use doc_parts::{NO_SEPX, Seds, sepx};
use file_rules::{LoadedText, sepx_place, sepx_ranges};
use grpprl_index::ListPlaces;
use overlapping_grpprls::{WalkedMap, walked_maps};
use prop_map::{PropMap, SECTION_GROUPS, act};
use std::alloc::Global;
use std::marker::Model;

/// The properties of each section. A map may be shared.
#[derive(Drop)]
pub struct SectionMaps {
    maps: Vec<PropMap>,
}

impl Model for SectionMaps {
    ghost use Rattle.std.specs.Prelude.{List};
    ghost use Rattle.std.specs.Coded.{coded_list};
    ghost use Rattle.prop_map.specs.Settings.{Properties, properties_code};

    ghost Value = { List Properties };

    ghost coded = { coded_list properties_code };

    ghost view = { λ m. m.maps.items };
}

impl SectionMaps {
    /// The properties of section `k`.
    pub fn get(&self, k: usize) -> &PropMap
        requires { k < length self.now }
        ensures { slice_get self.now k ≡ Some result.now }
    {
        &self.maps[k]
    }
}

/// Reads the properties of the sections.
pub fn read_section_maps(
    alloc: Global,
    text: &LoadedText<'_>,
    sections: &Seds,
) -> Result<SectionMaps, Memory>
    requires rules { Hold (rules_of_sections (doc_source_of text.now)) }
    requires sections { HasSections (doc_source_of text.now) sections.now }
    ensures { IfOk result (AreSectionMaps text.now.wd sections.now) }
{
    let source = text.source();
    let wd = source.wd();
    let mut maps = Vec::with_capacity(alloc, sections.len())?;
    let mut met = walked_sections(alloc, wd, sections)?;
    for k in 0..sections.len() {
        let (_, fc) = sections.get(k);
        maps.push(met.properties(alloc, wd, fc)?)?;
    }
    Ok(SectionMaps { maps })
}

/// The properties of sections whose Sepxs lie over one another, so far as few walks make them.
fn walked_sections(alloc: Global, wd: &[u8], sections: &Seds) -> Result<MetSections, Memory>
    ensures { IfOk result (λ met. AreMetSections wd.now met.places met.maps.items) }
{
    let ranges = sepx_ranges(alloc, wd, sections)?;
    let mut left = walked_maps(alloc, wd, &ranges, SECTION_GROUPS)?;
    let mut met = MetSections::new(alloc);
    while let Some(walked) = left.pop() {
        met.add(wd, walked)?;
    }
    Ok(met)
}

/// The properties of sections that were met, by the places of their Sepxs.
#[derive(Drop)]
struct MetSections {
    places: ListPlaces,
    maps: Vec<PropMap>,
}

impl MetSections {
    /// No sections. It takes no memory.
    fn new(alloc: Global) -> MetSections
        ensures { (wd : List ℕ) → AreMetSections wd result.places result.maps.items }
    {
        MetSections {
            places: ListPlaces::new(alloc),
            maps: Vec::new(alloc),
        }
    }

    /// Adds the properties that the list of a Sepx makes.
    fn add(&mut self, wd: &[u8], walked: WalkedMap) -> Result<(), Memory>
        requires walked { IsWalkedMap wd.now section_groups walked }
        requires met { AreMetSections wd.now self.old.places self.old.maps.items }
        ensures { OnOk result (AreMetSections wd.now self.new.places self.new.maps.items) }
    {
        let WalkedMap { range, map } = walked;
        let Some(place) = sepx_place(wd, range) else {
            return Ok(());
        };
        if place == NO_SEPX as usize {
            return Ok(());
        }
        self.maps.push(map)?;
        self.places.add(place, place)?;
        Ok(())
    }

    /// The properties of the section whose Sepx is at `fc`. A Sepx is read once.
    fn properties(&mut self, alloc: Global, wd: &[u8], fc: u32) -> Result<PropMap, Memory>
        requires there { ¬ (LacksSepx wd.now fc) }
        requires right { Nowhere (HasSepxFault wd.now fc) }
        requires met { AreMetSections wd.now self.old.places self.old.maps.items }
        ensures met { OnOk result (AreMetSections wd.now self.new.places self.new.maps.items) }
        ensures properties { IfOk result (IsSectionProperties wd.now fc) }
        ensures formed { IfOk result (IsPropertyMap section_groups) }
    {
        if fc == NO_SEPX {
            let none = read_section(alloc, wd, fc)?;
            return Ok(none);
        }
        let place = fc as usize;
        if let Some(known) = self.places.number_of(place, place) {
            let copy = self.maps[known].copy(alloc)?;
            return Ok(copy);
        }
        let map = read_section(alloc, wd, fc)?;
        let copy = map.copy(alloc)?;
        self.maps.push(map)?;
        self.places.add(place, place)?;
        Ok(copy)
    }
}

/// Reads the properties of a section whose Sepx is at `fc`.
fn read_section(alloc: Global, wd: &[u8], fc: u32) -> Result<PropMap, Memory>
    requires there { ¬ (LacksSepx wd.now fc) }
    requires right { Nowhere (HasSepxFault wd.now fc) }
    ensures properties { IfOk result (IsSectionProperties wd.now fc) }
    ensures formed { IfOk result (IsPropertyMap section_groups) }
{
    let none = PropMap::new(alloc);
    if fc == NO_SEPX {
        return Ok(none);
    }
    let acted = act(alloc, section_list(wd, fc), SECTION_GROUPS, &none)?;
    Ok(acted.map)
}

/// The list of the Sepx at `fc`.
fn section_list(wd: &[u8], fc: u32) -> &[u8]
    requires properties { fc ≢ NO_SEPX }
    requires there { ¬ (LacksSepx wd.now fc) }
    requires right { Nowhere (HasSepxFault wd.now fc) }
    ensures list { result.now ≡ sepx_list wd.now fc }
    ensures accepted { IsAcceptedList result.now section_groups }
{
    match sepx(wd, fc) {
        None => unreachable!(),
        Some((from, to)) => &wd[from..to],
    }
}
