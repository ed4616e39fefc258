//! Bytes for a caller.
ghost use Rattle.std.specs.Prelude.{◌≡◌, ◌≤◌, ◌<◌, IfErr, IfOk, length, take};

use crate::act_fault::ActFault;

/// Writes the bytes to the front of the caller's room, if it has room for all of them.
pub fn write_where_it_fits(bytes: &[u8], into: &mut [u8])
    ensures { length bytes.now ≤ length into.new → take (length bytes.now) into.new ≡ bytes.now }
{
    if bytes.len() <= into.len() {
        let (room, _) = into.split_at_mut(bytes.len());
        room.copy_from_slice(bytes);
    }
}

/// Writes the bytes to the front of the caller's room: their number; or says that the room is too short, and nothing is
/// written.
pub fn write(bytes: &[u8], into: &mut [u8]) -> Result<usize, ActFault>
    ensures written { IfOk result (λ count. take count into.new ≡ bytes.now) }
    ensures refused { IfErr result (λ fault. (fault ≡ ActFault.TooShort) × (length into.old < length bytes.now)) }
    ensures unwritten { IfErr result (λ fault. into.new ≡ into.old) }
{
    if bytes.len() > into.len() {
        return Err(ActFault::TooShort);
    }
    let (room, _) = into.split_at_mut(bytes.len());
    room.copy_from_slice(bytes);
    Ok(bytes.len())
}
