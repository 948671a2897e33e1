// The stream with another title.
ghost use Rattle.std.specs.Prelude.{◌≡◌, ◌≤◌, ◌+◌, ◌↔◌, length, All, IfOk, IsTrue, MatchResult};
ghost use Rattle.summary_set.specs.PropertySet.{first_set_size};
ghost use Rattle.summary_set.specs.Form.{IsPropertySet, IsSetFault};
ghost use Rattle.summary_set.specs.Values.{IsDecodedSet, property_of, property_values};
ghost use Rattle.summary_set.specs.Written.{title_property, in_place, retitled, retitled_stream};
ghost use Rattle.summary_set.specs.Written.{IsTitle};

use crate::SetFault;
use crate::form::check;
use crate::reading::PIDSI_TITLE;
use crate::set::{PropertyPair, PropertySet};
use crate::texts::VT_LPSTR;
use crate::values::Property;
use crate::written::written_set;
use doc_bits::{Bytes, Memory};
use std::alloc::Global;

/// The greatest number of bytes of a title.
const MAX_TITLE: usize = 255;

/// Whether `with_title` may be asked for a title: at most 255 bytes, each of them a character of plain ASCII.
pub fn is_title(title: &[u8]) -> bool
    ensures { IsTrue result ↔ IsTitle title.now }
{
    title.len() <= MAX_TITLE && is_plain(title)
}

/// Whether all bytes are from 0x20 to 0x7E.
fn is_plain(title: &[u8]) -> bool
    ensures { IsTrue result ↔ All (λ byte. (0x20 ≤ byte) × (byte ≤ 0x7E)) title.now }
{
    for i in 0..title.len() {
        if title[i] < 0x20 {
            return false;
        }
        if title[i] > 0x7E {
            return false;
        }
    }
    true
}

/// The summary stream with this title, in bytes from 0x20 to 0x7E. All other properties are kept, each value padded
/// to four bytes.
pub fn with_title(alloc: Global, stream: &[u8], title: &[u8]) -> Result<Bytes, SetFault>
    requires short { length stream.now ≤ 7143936 }
    requires title { IsTitle title.now }
    ensures { MatchResult result
        (λ made. IsPropertySet stream.now × (made ≡ retitled_stream stream.now title.now))
        (IsSetFault stream.now) }
{
    let set = check(alloc, stream)?;
    let values = set_title(alloc, stream, &set, title)?;
    Ok(written_set(alloc, stream, &values)?)
}

/// The properties with this title, in the place of the old one or last.
fn set_title(
    alloc: Global,
    stream: &[u8],
    set: &PropertySet,
    title: &[u8],
) -> Result<Vec<Property>, Memory>
    requires set { IsDecodedSet stream.now set.now }
    requires formed { IsPropertySet stream.now }
    requires short_title { length title.now ≤ 255 }
    ensures { IfOk result (λ values. values.items ≡ retitled (property_values stream.now) title.now) }
{
    let mut values = Vec::new(alloc);
    for i in 0..set.pairs.len() {
        values.push(renew_property(alloc, stream, set, set.pairs[i], title)?)?;
    }
    if set.pair_with(PIDSI_TITLE).is_some() {
        return Ok(values);
    }
    values.push(title_property(alloc, title)?)?;
    Ok(values)
}

/// The property that a pair names, or the new title where that is the title.
fn renew_property(
    alloc: Global,
    stream: &[u8],
    set: &PropertySet,
    pair: PropertyPair,
    title: &[u8],
) -> Result<Property, Memory>
    requires set { IsDecodedSet stream.now set.now }
    requires formed { IsPropertySet stream.now }
    requires pair { pair.offset + 4 ≤ first_set_size stream.now }
    requires short_title { length title.now ≤ 255 }
    ensures { IfOk result (λ property. property ≡ in_place title.now (property_of stream.now pair)) }
{
    if pair.id == PIDSI_TITLE {
        title_property(alloc, title)
    } else {
        set.property(alloc, stream, pair)
    }
}

fn title_property(alloc: Global, title: &[u8]) -> Result<Property, Memory>
    requires short_title { length title.now ≤ 255 }
    ensures { IfOk result (λ property. property ≡ title_property title.now) }
{
    let mut value = Bytes::new(alloc);
    value.push16(VT_LPSTR)?;
    value.push16(0)?;
    value.push32(title.len() as u32 + 1)?;
    value.push_all(title)?;
    value.push_all(&[0])?;
    Ok(Property {
        id: PIDSI_TITLE,
        value,
    })
}
