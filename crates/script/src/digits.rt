// Bytes in hex, with lower-case letters.
ghost use Rattle.std.specs.Prelude.{◌≡◌, IfOk, string_bytes};
ghost use Rattle.script.specs.Hex.{hex};

use std::alloc::{AllocError, Global};

// Two digits for each byte.
pub fn hex_text(heap: Global, bytes: &[u8]) -> Result<String, AllocError>
    ensures { IfOk result (λ s. string_bytes s ≡ hex bytes.now) }
{
    hex::encode(heap, bytes)
}
