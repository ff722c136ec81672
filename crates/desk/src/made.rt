//! The bytes of a made file.

ghost use Rattle.std.specs.Prelude.{◌≡◌, ◌<◌, ◌^◌, IfOk, MatchResult};
ghost use Rattle.desk.specs.Asks.{made_bytes};

use base::{Bytes, FILE_SIZE_MAX};
use site_events::LineRefusal;
use std::alloc::{AllocError, Global};

/// At most so many bytes are made: one more than the longest file has.
const MOST_MADE: u64 = FILE_SIZE_MAX + 1;

#[tactic(auto, using(crate::proofs::MadeBytes::one_more_made), unfolding(crate::specs::Asks::made_bytes))]
fn made(alloc: Global, size: u64, seed: u64) -> Result<Bytes, AllocError>
    requires { seed < 2 ^ 32 }
    ensures { IfOk result (λ b. b ≡ made_bytes size seed) }
{
    let length = size.min(MOST_MADE);
    let mut bytes = Vec::with_capacity(alloc, length as usize)?;
    for i in 0..length {
        bytes.push(((i + seed) % 256) as u8)?;
    }
    Ok(Bytes::from_vec(bytes))
}

/// Byte i is `(i + seed) mod 256`; of a size over the longest file's there is one byte more than that.
pub fn make_bytes(alloc: Global, size: u64, seed: u64) -> Result<Bytes, LineRefusal>
    requires { seed < 2 ^ 32 }
    ensures { MatchResult result (λ b. b ≡ made_bytes size seed) (λ e. e ≡ LineRefusal.NoMemory) }
{
    made(alloc, size, seed).map_err(|_| LineRefusal::NoMemory)
}
