// How a valid program is made of bytes, and what it holds.
ghost use Rattle.std.specs.Prelude.{◌≡◌};
ghost use Rattle.program.specs.Encoding.{encode_program};
ghost use Rattle.program.specs.Command.{load, encode};
ghost use Rattle.valid.specs.Held.{held_program, Taken};

use super::ValidProgram;
use reader::{Request, read_command};

impl ValidProgram {
    // The program that these bytes load; none if they are no command that loads a valid program.
    pub fn new(bytes: Vec<u8>) -> Option<ValidProgram>
        ensures { Taken bytes.items result }
    {
        match read_command(bytes.as_slice())? {
            Request::Load(_) => Some(ValidProgram { bytes }),
            _ => None,
        }
    }

    // The bytes of the command that loads it.
    pub fn bytes(&self) -> &[u8]
        ensures { result.now ≡ encode (load (held_program self.now)) }
    {
        self.bytes.as_slice()
    }

    // The program's bytes.
    pub fn program(&self) -> &[u8]
        ensures { result.now ≡ encode_program (held_program self.now) }
    {
        let (_, program) = self.bytes.as_slice().split_at(1);
        program
    }

    // How many variables it has.
    pub fn variables(&self) -> u8
        ensures { result ≡ (held_program self.now).vars }
    {
        self.bytes[1]
    }
}
