//! Bytes for a caller.
ghost use Rattle.std.specs.Prelude.{◌≡◌, ◌<◌, IsTrue, false, take, length};

/// Writes the bytes to the front of the caller's room. If that is too short, writes nothing.
pub fn write(bytes: &[u8], into: &mut [u8]) -> bool
    ensures written { IsTrue result → take (length bytes.now) into.new ≡ bytes.now }
    ensures unwritten { result ≡ false → into.new ≡ into.old }
    ensures too_long { result ≡ false → length into.old < length bytes.now }
{
    if bytes.len() > into.len() {
        return false;
    }
    let (room, _) = into.split_at_mut(bytes.len());
    room.copy_from_slice(bytes);
    true
}
