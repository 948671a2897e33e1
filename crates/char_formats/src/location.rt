// Places in the stream `Data`.
ghost use Rattle.std.specs.Prelude.{◌≡◌, Some};
ghost use Rattle.char_formats.specs.Locations.{location_in, location_of};

use doc_bits::get32;
use prop_map::PropMap;
use sprm_table::Code;

/// [MS-DOC] sprmCPicLocation.
const SPRM_C_PIC_LOCATION: Code = Code(0x6A03);

/// The bytes of its operand.
const LOCATION_LEN: usize = 4;

/// The place in the stream `Data` that the properties of a character name.
pub fn location_in(direct: &PropMap) -> Option<u32>
    ensures { result ≡ location_in direct.now }
{
    match direct.get(SPRM_C_PIC_LOCATION) {
        None => None,
        Some(value) => location_of(value),
    }
}

/// The place that an operand names.
fn location_of(value: &[u8]) -> Option<u32>
    ensures { result ≡ location_of (Some value.now) }
{
    if value.len() == LOCATION_LEN {
        Some(get32(value, 0))
    } else {
        None
    }
}
