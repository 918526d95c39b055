ghost use Rattle.std.specs.Prelude.{◌≡◌, ◌≤◌, max, OnOk, OnErr};
ghost use Rattle.hda_outside.specs.Counts.{Rose};
ghost use Rattle.hda_outside.specs.Sink.{taken_with, TookFront};

use crate::fault::Fault;
use crate::sink::Sink;
use std::alloc::Global;

/// The most bytes that one write of [`write_all`] passes on.
pub const PIECE_LEN: usize = 4_096;

/// Writes all of `bytes`, in pieces of at most [`PIECE_LEN`] bytes.
///
/// # Errors
///
/// The sink's fault. The sink then took the first of the bytes, maybe none.
#[tactic(auto, using(crate::proofs::TakenLemmas::piece_steps))]
pub fn write_all<K: Sink>(alloc: Global, out: &mut K, bytes: &[u8]) -> Result<(), Fault>
    ensures all { OnOk result (K.taken out.new ≡ taken_with (K.taken out.old) bytes.now) }
    ensures front { OnErr result (TookFront (K.taken out.old) (K.taken out.new) bytes.now) }
    ensures pieces { K.longest out.new ≤ max (K.longest out.old) 4096 }
    ensures later { K.faults out.old ≤ K.faults out.new }
    ensures failed { result ≡ Err Fault.Failed → Rose (K.faults out.old) (K.faults out.new) }
{
    let mut done = 0;
    while done < bytes.len() {
        let end = (bytes.len() - done).min(PIECE_LEN) + done;
        done += out.write(alloc, &bytes[done..end])?;
    }
    Ok(())
}
