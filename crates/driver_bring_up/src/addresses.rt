//! The addresses of codecs.
ghost use Rattle.std.specs.Prelude.{◌≡◌, ◌≢◌, ◌≤◌, ◌<◌, ◌^◌, All, IfOk, length};
ghost use Rattle.driver_bring_up.specs.Addresses as spec;

use std::alloc::{AllocError, Global};
use verb_codes::has_bit;

/// How many addresses a codec may have: 0 to 14 (HDA 1.0a, 3.3.9).
const ADDRESSES: u8 = 15;

/// How many codecs are walked at most. This project's own.
const MOST_CODECS: usize = 4;

/// The addresses whose bits are set, ascending, the four lowest where more are: bit n for address n.
///
/// # Errors
/// Want of memory.
pub fn addresses_in(alloc: Global, bits: u16) -> Result<Vec<u8>, AllocError>
    ensures value { IfOk result (λ addresses. addresses.items ≡ spec.addresses_in bits) }
    ensures some { IfOk result (λ addresses. bits ≢ 0 → bits < 2 ^ 15 → 0 < length addresses.items) }
    ensures few { IfOk result (λ addresses. All (λ address. address ≤ 14) addresses.items) }
{
    let mut addresses = Vec::new(alloc);
    for address in 0..ADDRESSES {
        if addresses.len() < MOST_CODECS && has_bit(u32::from(bits), u32::from(address)) {
            addresses.push(address)?;
        }
    }
    Ok(addresses)
}
