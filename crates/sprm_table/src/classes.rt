ghost use Rattle.std.specs.Prelude.{◌≡◌, ◌↔◌, IsTrue};
ghost use Rattle.sprm_table.specs.Codes.{sgc, class_of, is_held, IsRefusedIn};

use crate::{Class, Code};

// sprmCPlain and sprmPIstd
const CPLAIN: u16 = 0x2A33;

const PISTD: u16 = 0x4600;

/// A code above the toggles.
const LOW_CODES: u16 = 0x0859;

/// What a sprm does. Codes that the table does not list are Plain.
#[tactic(auto, using(crate::proofs::CodeLemmas::plain_code))]
pub fn class(code: Code) -> Class
    ensures { result ≡ class_of code.0 }
{
    // Most sprms are told by one bit: none of the others has it at 0, but for some of low numbers.
    if LOW_CODES <= code.0 && code.0 >> 9 & 1 == 0 {
        return Class::Plain;
    }
    rare_class(code)
}

/// The class of a code, by the tables.
fn rare_class(code: Code) -> Class
    ensures { result ≡ class_of code.0 }
{
    match code.0 {
        CPLAIN => Class::Clear,
        PISTD => Class::Style,
        0x0835..=0x083C | 0x0854 | 0x0858 => Class::Toggle,
        0x4610 | 0xC615 | 0xCA47 | 0x6645 | 0x6646 | 0x0800 | 0x0801 | 0xCA57 | 0xC63F => {
            Class::Refused
        }
        _ => Class::Plain,
    }
}

/// The group of a sprm, its sgc: 1 paragraph, 2 character, 3 picture, 4 section, 5 table.
pub fn group(code: Code) -> u8
    ensures { result ≡ sgc code.0 }
{
    (code.0 >> 10 & 7) as u8
}

/// Whether a place with these groups holds the code. `groups` has bit sgc set for each of them.
pub fn held(groups: u8, code: Code) -> bool
    ensures { result ≡ is_held groups code.0 }
{
    groups >> group(code) & 1 == 1
}

/// Whether the code is one that is not read, of a group that the place holds.
pub fn is_refused(groups: u8, code: Code) -> bool
    ensures { IsTrue result ↔ IsRefusedIn groups code.0 }
{
    held(groups, code) && class(code) == Class::Refused
}
