// What the types of numbers say of them. None of these functions does anything when it runs.
ghost use Rattle.std.specs.Prelude.{◌^◌, ◌<◌, All};
ghost use Rattle.std.specs.Option.{ForSome};
ghost use Rattle.doc_bits.specs.Number.{AreBytes};
ghost use Rattle.doc_model.specs.Document.{HasPropertyMaps, IsFormedItem};

use crate::{Item, Mark};

/// Items with right maps are well formed.
pub(crate) fn are_formed(items: &[Item])
    requires { All HasPropertyMaps items.now }
    ensures { All IsFormedItem items.now }
{
    for item in items {
        is_formed(item);
    }
}

/// An item with right maps is well formed.
fn is_formed(item: &Item)
    requires { HasPropertyMaps item.now }
    ensures { IsFormedItem item.now }
{
    is_word(item.unit);
    has_style_number(&item.mark);
    has_field_byte(&item.fld);
}

/// The style number of a mark has 16 bits.
pub fn has_style_number(mark: &Option<Mark>)
    ensures { ForSome mark.now (λ mark. mark.istd < 2 ^ 16) }
{
    if let Some(mark) = mark {
        is_word(mark.istd);
    }
}

/// The byte of a field character is one.
pub fn has_field_byte(fld: &Option<u8>)
    ensures { ForSome fld.now (λ byte. byte < 2 ^ 8) }
{
    if let Some(byte) = fld {
        is_byte(*byte);
    }
}

/// Bytes are below 256.
pub(crate) fn are_bytes(bytes: &[u8])
    ensures { AreBytes bytes.now }
{}

/// A number of 16 bits is below 2^16.
pub fn is_word(number: u16)
    ensures { number < 2 ^ 16 }
{}

/// A byte is below 256.
pub fn is_byte(number: u8)
    ensures { number < 2 ^ 8 }
{}
