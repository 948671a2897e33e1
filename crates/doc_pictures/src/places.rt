// The places in the stream `Data` that the characters of a document name.
ghost use Rattle.std.specs.Prelude.{◌≡◌, ◌<◌, ◌++◌, [], length, slice_get, Some, IfOk, OnOk};
ghost use Rattle.std.specs.List.{cons_option, flat_map};
ghost use Rattle.doc_model.specs.declared.item.Item.{Item};
ghost use Rattle.doc_columns.specs.Walks.{items_in, AreFullParts, IsColumnWalk};
ghost use Rattle.doc_pictures.specs.Places.{picture_place, places_in, picture_places};

use char_formats::location_in;
use doc_bits::Memory;
use doc_columns::{ColumnDocument, ColumnTexts, Columns, Parts, Walk, alike_from};
use std::alloc::Global;
use text_codes::PICTURE;

/// The places that the characters of a document name: those of its main text, its notes and its header texts.
pub(crate) fn places_of(alloc: Global, document: &ColumnDocument) -> Result<Vec<u32>, Memory>
    ensures { IfOk result (λ places. places.items ≡ picture_places document.now) }
{
    let mut places = Vec::new(alloc);
    push_text(&mut places, &document.main)?;
    push_texts(&mut places, &document.notes)?;
    push_texts(&mut places, &document.heads)?;
    Ok(places)
}

/// Puts those of texts behind the others.
fn push_texts(places: &mut Vec<u32>, texts: &ColumnTexts) -> Result<(), Memory>
    ensures { OnOk result (places.new.items ≡ places.old.items ++ flat_map places_in texts.now) }
{
    for k in 0..texts.len() {
        push_text(places, texts.get(k))?;
    }
    Ok(())
}

/// Puts those of a text behind the others.
fn push_text(places: &mut Vec<u32>, text: &Columns) -> Result<(), Memory>
    ensures { OnOk result (places.new.items ≡ places.old.items ++ places_in text.now) }
{
    let parts = text.parts();
    let mut walk = Walk::new();
    for i in 0..parts.units.len() {
        let place = place_at(&parts, &mut walk, i);
        push_some(places, place)?;
    }
    Ok(())
}

/// Puts a place behind the others, where there is one.
fn push_some(places: &mut Vec<u32>, place: Option<u32>) -> Result<(), Memory>
    ensures { OnOk result (places.new.items ≡ places.old.items ++ cons_option place []) }
{
    let Some(place) = place else {
        return Ok(());
    };
    places.push(place)?;
    Ok(())
}

/// The place that an item names. Only for the character of a picture the walk goes to the item.
fn place_at(parts: &Parts<'_>, walk: &mut Walk, i: usize) -> Option<u32>
    requires parts { AreFullParts parts.now }
    requires walk { IsColumnWalk parts.now walk.old i }
    requires within { i < length parts.now.units.now }
    ensures walk { IsColumnWalk parts.now walk.new i }
    ensures place { (item : Item) → slice_get (items_in parts.now) i ≡ Some item → result ≡ picture_place item }
{
    if parts.units[i] != PICTURE {
        return None;
    }
    let alike = alike_from(parts, walk, i);
    location_in(alike.chp)
}
