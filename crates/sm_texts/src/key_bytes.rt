//! The bytes that encode keys.
ghost use Rattle.std.specs.Prelude.{◌≡◌, ◌++◌, IfOk, OnOk, map};
ghost use Rattle.sm_map.specs.Val.{row_of};
ghost use Rattle.sm_texts.specs.Keys.{key_bytes, spelled_keys};

use sm_map::val::Val;
use std::alloc::{AllocError, Global};

/// Returns the keys of a scan's rows as bytes: each key behind its length in 8 bytes, the highest byte first.
///
/// # Errors
///
/// `AllocError` if memory is refused.
pub fn spelled_keys(alloc: Global, rows: &[(&[u8], Val<'_>)]) -> Result<Vec<u8>, AllocError>
    ensures { IfOk result (λ bytes. bytes.items ≡ spelled_keys (map row_of rows.now)) }
{
    let mut out = Vec::new(alloc);
    for row in rows {
        put_key(&mut out, row)?;
    }
    Ok(out)
}

fn put_key(out: &mut Vec<u8>, row: &(&[u8], Val<'_>)) -> Result<(), AllocError>
    ensures { OnOk result (out.new.items ≡ out.old.items ++ key_bytes (row_of row.now).key) }
{
    let (key, _) = *row;
    out.extend_from_slice(&(key.len() as u64).to_be_bytes())?;
    out.extend_from_slice(key)?;
    Ok(())
}
