// The properties of both summary streams.
ghost use Rattle.std.specs.Prelude.{IfOk};
ghost use Rattle.property_text.specs.Printable.{HasNoControls};
ghost use Rattle.property_sets.specs.Sets.{IsSet};

use crate::coded::{UTF_16, push_coded};
use crate::keys::{common_key, standard_key};
use crate::page::{PropertyForm, PropertyPage};
use crate::sections::Section;
use crate::values::{Reading, number, push_value};
use doc_bits::{Bytes, Memory, Text, get32};
use property_sets::{
    DICTIONARY, Property, PropertyName, SET_COUNT, TypedValue, properties, property_names,
    property_set,
};
use std::alloc::Global;
use std::collections::BTreeMap;

/// [MS-OLEPS] CODEPAGE_PROPERTY_IDENTIFIER and the type of its value.
const CODEPAGE: u32 = 1;

const VT_I2: u16 = 0x02;

/// The code page of a set that has none.
const WINDOWS_LATIN: u16 = 1252;

/// [MS-OLEPS] PIDSI_EDITTIME
const EDIT_TIME: u32 = 10;

/// The bytes of the two streams of a file that have its properties.
#[derive(Clone, Copy)]
pub struct SummaryStreams<'a> {
    pub summary: Option<&'a [u8]>,
    pub document: Option<&'a [u8]>,
}

/// The page of the properties that the streams hold.
pub fn property_page(
    alloc: Global,
    streams: SummaryStreams<'_>,
    form: PropertyForm,
) -> Result<Text, Memory>
    ensures { IfOk result HasNoControls }
{
    let mut page = PropertyPage::new(alloc, form);
    if let Some(stream) = streams.summary {
        push_set(&mut page, stream, Section::Summary)?;
    }
    if let Some(stream) = streams.document {
        push_set(&mut page, stream, Section::Document)?;
        if has_second(stream) {
            push_set(&mut page, stream, Section::User)?;
        }
    }
    page.finish()
}

/// Whether a stream says that it has more than one set.
fn has_second(stream: &[u8]) -> bool {
    stream.len() >= SET_COUNT + 4 && get32(stream, SET_COUNT) > 1
}

/// Adds the properties of a set.
fn push_set(page: &mut PropertyPage, stream: &[u8], section: Section) -> Result<(), Memory> {
    let Some(set) = property_set(stream, section.place()) else {
        return push_damaged(page, section);
    };
    let found = properties(page.alloc(), set)?;
    let code_page = code_page(&found);
    let mut keys = user_keys(page.alloc(), set, section, code_page)?;
    for property in &found {
        if property.id != DICTIONARY {
            push_property(page, property, section, code_page, &mut keys)?;
        }
    }
    Ok(())
}

/// Says that a set is not in form.
fn push_damaged(page: &mut PropertyPage, section: Section) -> Result<(), Memory> {
    page.begin_key()?;
    page.push_str(section.title())?;
    page.end_key()?;
    page.push_unread(None)?;
    page.end_value()
}

/// The code page of the texts of a set.
fn code_page(found: &[Property]) -> u16 {
    for property in found {
        if let Some(value) = &property.value {
            if is_code_page(property.id, value) {
                return (number(value.bytes.as_slice()) % 0x10000) as u16;
            }
        }
    }
    WINDOWS_LATIN
}

/// Whether a property is the code page of its set: a number without a sign, whatever its type says.
fn is_code_page(id: u32, value: &TypedValue) -> bool {
    id == CODEPAGE && value.kind == VT_I2
}

/// The names of user-defined properties by their ids.
fn user_keys(
    alloc: Global,
    set: &[u8],
    section: Section,
    code_page: u16,
) -> Result<BTreeMap<u32, Bytes>, Memory>
    requires { IsSet set.now }
{
    let mut keys = BTreeMap::new(alloc);
    if section != Section::User {
        return Ok(keys);
    }
    for name in property_names(alloc, set, code_page == UTF_16)? {
        let PropertyName { id, bytes } = name;
        keys.insert(id, bytes)?;
    }
    Ok(keys)
}

/// Adds a property: its name and its value.
fn push_property(
    page: &mut PropertyPage,
    property: &Property,
    section: Section,
    code_page: u16,
    keys: &mut BTreeMap<u32, Bytes>,
) -> Result<(), Memory> {
    page.begin_key()?;
    push_key(page, section, property.id, code_page, keys)?;
    page.end_key()?;
    let reading = Reading {
        code_page,
        span: section == Section::Summary && property.id == EDIT_TIME,
    };
    match &property.value {
        Some(value) if is_code_page(property.id, value) => {
            page.push_decimal(number(value.bytes.as_slice()))?
        }
        Some(value) => push_value(page, value, reading)?,
        None => page.push_unread(None)?,
    }
    page.end_value()
}

/// Adds the name of a property: that of the standard, or the set's and the name or the number in it. A name of the user's
/// is taken once, so that no page is longer for it than the dictionary.
fn push_key(
    page: &mut PropertyPage,
    section: Section,
    id: u32,
    code_page: u16,
    keys: &mut BTreeMap<u32, Bytes>,
) -> Result<(), Memory> {
    if let Some(key) = standard_key(section, id) {
        return page.push_str(key);
    }
    page.push_str(section.prefix())?;
    if let Some(key) = common_key(id) {
        return page.push_str(key);
    }
    match keys.remove(&id) {
        Some(name) => push_coded(page, name.as_slice(), code_page),
        None => page.push_hexadecimal(id),
    }
}
