ghost use Rattle.std.specs.Prelude.{◌≡◌, ◌≤◌, length, IfOk, MatchResult};
ghost use Rattle.summary_set.specs.Form.{IsPropertySet, IsSetFault};
ghost use Rattle.summary_set.specs.Values.{IsDecodedSet};
ghost use Rattle.summary_set.specs.Texts.{AreFieldsOf, text_property, page_property};

use crate::form::check;
use crate::set::PropertySet;
use crate::texts::{page, text};
use crate::{Fields, SetFault};
use doc_bits::{Bytes, Memory};
use std::alloc::Global;

/// [MS-OLEPS] the id of the code page of a set.
const CODEPAGE: u32 = 1;

/// [MS-OLEPS] the ids of a title, a subject and an author.
pub(crate) const PIDSI_TITLE: u32 = 2;

const PIDSI_SUBJECT: u32 = 3;

const PIDSI_AUTHOR: u32 = 4;

/// The texts of a summary stream.
pub fn fields(alloc: Global, stream: &[u8]) -> Result<Fields, SetFault>
    requires short { length stream.now ≤ 7143936 }
    ensures { MatchResult result
        (λ fields. IsPropertySet stream.now × AreFieldsOf stream.now fields)
        (IsSetFault stream.now) }
{
    let set = check(alloc, stream)?;
    Ok(fields_of(alloc, stream, &set)?)
}

/// The code page of the texts of a summary stream, where it has one.
pub fn code_page(alloc: Global, stream: &[u8]) -> Result<Option<u16>, SetFault>
    requires short { length stream.now ≤ 7143936 }
    ensures { MatchResult result
        (λ found. IsPropertySet stream.now × (found ≡ page_property stream.now))
        (IsSetFault stream.now) }
{
    let set = check(alloc, stream)?;
    Ok(page_of(stream, &set))
}

/// The code page of a set.
fn page_of(stream: &[u8], set: &PropertySet) -> Option<u16>
    requires set { IsDecodedSet stream.now set.now }
    requires formed { IsPropertySet stream.now }
    ensures { result ≡ page_property stream.now }
{
    let Some(pair) = set.pair_with(CODEPAGE) else {
        return None;
    };
    page(set.value(stream, pair))
}

fn fields_of(alloc: Global, stream: &[u8], set: &PropertySet) -> Result<Fields, Memory>
    requires set { IsDecodedSet stream.now set.now }
    requires formed { IsPropertySet stream.now }
    ensures { IfOk result (AreFieldsOf stream.now) }
{
    Ok(Fields {
        title: text_property(alloc, stream, set, PIDSI_TITLE)?,
        subject: text_property(alloc, stream, set, PIDSI_SUBJECT)?,
        author: text_property(alloc, stream, set, PIDSI_AUTHOR)?,
    })
}

/// The text of the property with an id.
fn text_property(
    alloc: Global,
    stream: &[u8],
    set: &PropertySet,
    id: u32,
) -> Result<Option<Bytes>, Memory>
    requires set { IsDecodedSet stream.now set.now }
    requires formed { IsPropertySet stream.now }
    ensures { IfOk result (λ found. found ≡ text_property stream.now id) }
{
    let Some(pair) = set.pair_with(id) else {
        return Ok(None);
    };
    match text(set.value(stream, pair)) {
        Some(bytes) => Ok(Some(Bytes::from_slice(alloc, bytes)?)),
        None => Ok(None),
    }
}
