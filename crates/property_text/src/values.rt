// Values by their types.
ghost use Rattle.std.specs.Prelude.{◌<◌};

use crate::coded::{push_coded, push_units};
use crate::dates::{date_of, is_span, seconds_of};
use crate::page::PropertyPage;
use doc_bits::{Memory, get16, get32};
use property_sets::TypedValue;
use std::num::f64_from_bits_with_nan;

/// [MS-OLEPS] PropertyType.
const VT_I2: u16 = 0x02;

const VT_I4: u16 = 0x03;

const VT_R8: u16 = 0x05;

const VT_BSTR: u16 = 0x08;

const VT_BOOL: u16 = 0x0B;

const VT_I1: u16 = 0x10;

const VT_UI1: u16 = 0x11;

const VT_UI2: u16 = 0x12;

const VT_UI4: u16 = 0x13;

const VT_I8: u16 = 0x14;

const VT_UI8: u16 = 0x15;

const VT_INT: u16 = 0x16;

const VT_UINT: u16 = 0x17;

const VT_LPSTR: u16 = 0x1E;

const VT_LPWSTR: u16 = 0x1F;

const VT_FILETIME: u16 = 0x40;

/// How a value is read: by the code page of its set, and as a span of time where it is one by its name.
#[derive(Clone, Copy)]
pub(crate) struct Reading {
    pub(crate) code_page: u16,
    pub(crate) span: bool,
}

/// Adds a value.
pub(crate) fn push_value(
    page: &mut PropertyPage,
    value: &TypedValue,
    reading: Reading,
) -> Result<(), Memory> {
    let bytes = value.bytes.as_slice();
    match value.kind {
        VT_LPSTR | VT_BSTR => push_text(page, bytes, reading.code_page),
        VT_LPWSTR => push_text_units(page, bytes),
        VT_FILETIME => push_time(page, number(bytes), reading.span),
        VT_BOOL => page.push_str(if number(bytes) == 0 { "false" } else { "true" }),
        VT_R8 => push_float(page, number(bytes)),
        kind => push_number(page, kind, bytes),
    }
}

/// Adds a number of a type, or says which type is not shown.
fn push_number(page: &mut PropertyPage, kind: u16, bytes: &[u8]) -> Result<(), Memory> {
    match kind {
        VT_UI1 | VT_UI2 | VT_UI4 | VT_UI8 | VT_UINT => page.push_decimal(number(bytes)),
        VT_I1 => push_signed(page, number(bytes), 1 << 7),
        VT_I2 => push_signed(page, number(bytes), 1 << 15),
        VT_I4 | VT_INT => push_signed(page, number(bytes), 1 << 31),
        VT_I8 => push_signed(page, number(bytes), 1 << 63),
        kind => page.push_unread(Some(kind)),
    }
}

/// The number of up to eight bytes, the lowest first.
pub(crate) fn number(bytes: &[u8]) -> u64 {
    match bytes.len() {
        1 => bytes[0] as u64,
        2 => get16(bytes, 0) as u64,
        4 => get32(bytes, 0) as u64,
        8 => get32(bytes, 0) as u64 + get32(bytes, 4) as u64 * 0x1_0000_0000,
        _ => 0,
    }
}

/// Adds a number whose highest bit is its sign.
fn push_signed(page: &mut PropertyPage, number: u64, sign: u64) -> Result<(), Memory>
    requires { 0 < sign }
{
    if number < sign {
        return page.push_decimal(number);
    }
    page.push_str("-")?;
    page.push_decimal(sign - (number - sign) % sign)
}

/// Adds a text in a code page.
fn push_text(page: &mut PropertyPage, bytes: &[u8], code_page: u16) -> Result<(), Memory> {
    page.quote()?;
    push_coded(page, bytes, code_page)?;
    page.quote()
}

/// Adds a text of units.
fn push_text_units(page: &mut PropertyPage, bytes: &[u8]) -> Result<(), Memory> {
    page.quote()?;
    push_units(page, bytes)?;
    page.quote()
}

/// Adds a date, or a span of time as its seconds.
fn push_time(page: &mut PropertyPage, ticks: u64, span: bool) -> Result<(), Memory> {
    page.quote()?;
    let seconds = seconds_of(ticks);
    if span || is_span(seconds) {
        page.push_str("PT")?;
        page.push_decimal(seconds)?;
        page.push_str("S")?;
    } else {
        page.push_date(date_of(ticks))?;
    }
    page.quote()
}

/// Adds a number of double precision, where it is one.
fn push_float(page: &mut PropertyPage, bits: u64) -> Result<(), Memory> {
    if bits / 0x10_0000_0000_0000 % 0x800 == 0x7FF {
        return page.push_unread(Some(VT_R8));
    }
    let number = f64_from_bits_with_nan(bits);
    let digits = format!(in page.alloc(); "{number}")?;
    page.push_str(digits.as_str())
}
