// Units of one byte. Most represent themselves, and these are put without a look at the others.
ghost use Rattle.std.specs.Prelude.{◌≡◌, ◌+◌, ◌<◌, ◌≤◌, ◌++◌};
ghost use Rattle.std.specs.Prelude.{ℕ, length, map, slice_index, take};
ghost use Rattle.std.specs.List.{range_with_len};
ghost use Rattle.text_codes.specs.Compressed.{compressed_unit};
ghost use Rattle.file_rules.specs.Units.{narrow_unit};

use text_codes::unit_of_byte;

/// The number of bytes that are looked at together.
const PART_LEN: usize = 64;

/// Each byte below this one represents itself.
const FIRST_CODED: u8 = 0x80;

/// Puts `len` units of one byte that are from `at` on.
pub(crate) fn put_narrow(units: &mut [u16], cp: usize, wd: &[u8], at: usize, len: usize)
    requires end { at + len ≤ length wd.now }
    requires room { cp + len ≤ length units.old }
    ensures len { length units.new ≡ length units.old }
    ensures put { take (cp + len) units.new
        ≡ take cp units.old ++ map (narrow_unit wd.now at) (range_with_len 0 len) }
{
    let mut done = 0;
    while done < len {
        let part = (len - done).min(PART_LEN);
        put_part(units, cp + done, wd, at + done, part);
        done += part;
    }
}

/// Puts the units of a few bytes.
fn put_part(units: &mut [u16], cp: usize, wd: &[u8], at: usize, len: usize)
    requires end { at + len ≤ length wd.now }
    requires room { cp + len ≤ length units.old }
    ensures len { length units.new ≡ length units.old }
    ensures put { take (cp + len) units.new
        ≡ take cp units.old ++ map (narrow_unit wd.now at) (range_with_len 0 len) }
{
    if greatest(wd, at, len) < FIRST_CODED {
        put_plain(units, cp, wd, at, len)
    } else {
        put_coded(units, cp, wd, at, len)
    }
}

/// The greatest byte.
fn greatest(wd: &[u8], at: usize, len: usize) -> u8
    requires { at + len ≤ length wd.now }
    ensures { (j : ℕ) → j < len → slice_index wd.now (at + j) ≤ result }
{
    let mut most = 0;
    for j in 0..len {
        most = wd[at + j].max(most);
    }
    most
}

/// Puts the units of bytes that represent themselves.
fn put_plain(units: &mut [u16], cp: usize, wd: &[u8], at: usize, len: usize)
    requires end { at + len ≤ length wd.now }
    requires plain { (j : ℕ) → j < len → slice_index wd.now (at + j) < 0x80 }
    requires room { cp + len ≤ length units.old }
    ensures len { length units.new ≡ length units.old }
    ensures put { take (cp + len) units.new
        ≡ take cp units.old ++ map (narrow_unit wd.now at) (range_with_len 0 len) }
{
    for j in 0..len {
        units[cp + j] = plain_unit(wd[at + j]);
    }
}

/// The unit of a byte that represents itself.
fn plain_unit(byte: u8) -> u16
    requires { byte < 0x80 }
    ensures { result ≡ compressed_unit byte }
{
    byte as u16
}

/// Puts the units of any bytes.
fn put_coded(units: &mut [u16], cp: usize, wd: &[u8], at: usize, len: usize)
    requires end { at + len ≤ length wd.now }
    requires room { cp + len ≤ length units.old }
    ensures len { length units.new ≡ length units.old }
    ensures put { take (cp + len) units.new
        ≡ take cp units.old ++ map (narrow_unit wd.now at) (range_with_len 0 len) }
{
    for j in 0..len {
        units[cp + j] = unit_of_byte(wd[at + j]);
    }
}
