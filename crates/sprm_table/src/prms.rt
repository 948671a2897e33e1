ghost use Rattle.std.specs.Prelude.{◌≡◌, IfSome, option_map};
ghost use Rattle.sprm_table.specs.Prms.{code_of_isprm, IsPrmCode};

use crate::Code;

/// The code that the isprm of a Prm represents. None where it is not one that is read; 0 is none.
pub fn prm_code(isprm: u8) -> Option<Code>
    ensures code { option_map (λ code. code.0) result ≡ code_of_isprm isprm }
    ensures one_byte { IfSome result (λ code. IsPrmCode code.0) }
{
    let code = match isprm {
        0x05 => 0x2403,
        0x07 => 0x2405,
        0x08 => 0x2406,
        0x09 => 0x2407,
        0x18 => 0x2416,
        0x19 => 0x2417,
        0x53 => 0x2A33,
        0x55 => 0x0835,
        0x56 => 0x0836,
        0x57 => 0x0837,
        0x58 => 0x0838,
        0x59 => 0x0839,
        0x5A => 0x083A,
        0x5B => 0x083B,
        0x5C => 0x083C,
        0x5E => 0x2A3E,
        0x62 => 0x2A42,
        0x68 => 0x2A48,
        _ => return None,
    };
    Some(Code(code))
}
