// Bytes that are handed to a caller who lends room for them.
ghost use Rattle.std.specs.Prelude.{◌≡◌, length};
ghost use Rattle.docbin_c.specs.Rooms.{handed};

/// Copies as many bytes as there is room for, and tells how many there are.
pub(crate) fn hand(bytes: &[u8], room: &mut [u8]) -> u64
    ensures number { result ≡ length bytes.now }
    ensures handed { room.new ≡ handed bytes.now room.old }
{
    let count = bytes.len().min(room.len());
    room[..count].copy_from_slice(&bytes[..count]);
    bytes.len() as u64
}
