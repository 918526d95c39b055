//! The words of a fault.
ghost use Rattle.std.specs.Prelude.{◌≡◌, IfOk, OnOk, OnErr, length};
ghost use Rattle.hda_model.specs.Copies.{copied};
ghost use Rattle.hda_model.specs.Refusals.{open_fault_text};

use hda_model::{OpenFault, copy_bytes};
use std::alloc::{AllocError, Global};

/// Writes the words of a fault, as many bytes as fit, and says how many they are.
///
/// # Errors
/// Want of memory. Nothing is written then.
pub(crate) fn tell(alloc: Global, why: OpenFault, into: &mut [u8]) -> Result<usize, AllocError>
    ensures words { OnOk result (into.new ≡ copied (open_fault_text why) into.old) }
    ensures length { IfOk result (λ count. count ≡ length (open_fault_text why)) }
    ensures none { OnErr result (into.new ≡ into.old) }
{
    let words = why.to_string(alloc)?;
    copy_bytes(words.as_bytes(), into);
    Ok(words.len())
}
