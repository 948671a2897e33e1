ghost use Rattle.std.specs.Prelude.{◌≡◌, ◌+◌, ◌≤◌, ◌++◌, ℕ, length, take, drop};
ghost use Rattle.doc_bits.specs.Number.{u16_at, u32_at, number_bytes};

use byteorder::{ByteOrder, LittleEndian};

/// The 16-bit number at a place.
pub fn get16(bytes: &[u8], at: usize) -> u16
    requires { at + 2 ≤ length bytes.now }
    ensures { result ≡ u16_at bytes.now at }
{
    LittleEndian::read_u16(&bytes[at..at + 2])
}

/// The 32-bit number at a place.
pub fn get32(bytes: &[u8], at: usize) -> u32
    requires { at + 4 ≤ length bytes.now }
    ensures { result ≡ u32_at bytes.now at }
{
    LittleEndian::read_u32(&bytes[at..at + 4])
}

/// Writes a 16-bit number at a place. All other bytes stay.
pub fn put16(bytes: &mut [u8], at: usize, value: u16)
    requires { at + 2 ≤ length bytes.old }
    ensures { bytes.new ≡ take at bytes.old ++ (number_bytes 2 value ++ drop (at + 2) bytes.old) }
{
    LittleEndian::write_u16(&mut bytes[at..at + 2], value);
}

/// Writes a 32-bit number at a place. All other bytes stay.
pub fn put32(bytes: &mut [u8], at: usize, value: u32)
    requires { at + 4 ≤ length bytes.old }
    ensures { bytes.new ≡ take at bytes.old ++ (number_bytes 4 value ++ drop (at + 4) bytes.old) }
{
    LittleEndian::write_u32(&mut bytes[at..at + 4], value);
}
