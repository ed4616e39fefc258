ghost use Rattle.std.specs.Prelude.{◌≡◌, ◌++◌, OnOk, OnErr, map};
ghost use Rattle.std.specs.List.{concat};

use std::alloc::AllocError;

/// Appends all pieces, one after the other, or nothing.
pub(crate) fn append_all(out: &mut Vec<u8>, pieces: &[&[u8]]) -> Result<(), AllocError>
    ensures ok { OnOk result (out.new.items ≡ out.old.items ++ concat (map (λ piece. piece.now) pieces.now)) }
    ensures err { OnErr result (out.new.items ≡ out.old.items) }
{
    let start = out.len();
    for piece in pieces {
        if out.extend_from_slice(piece).is_err() {
            out.truncate(start);
            return Err(AllocError);
        }
    }
    Ok(())
}
