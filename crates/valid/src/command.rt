// The command that loads a program, from the program's own bytes.
ghost use Rattle.std.specs.Prelude.{◌≡◌, ◌∷◌, IfOk};

use program::LOAD;
use std::alloc::{AllocError, Global};

/// The command that loads the program with these bytes, valid or not.
pub fn load_command(heap: Global, program: &[u8]) -> Result<Vec<u8>, AllocError>
    ensures { IfOk result (λ v. v.items ≡ 1 ∷ program.now) }
{
    let mut text = Vec::new(heap);
    text.push(LOAD)?;
    text.extend_from_slice(program)?;
    Ok(text)
}
