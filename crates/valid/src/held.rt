// A valid program, held as the bytes of the command that loads it.
ghost use Rattle.program.specs.Command.{load};
ghost use Rattle.reader.specs.Request.{EncodingOf};
ghost use Rattle.valid.specs.Loaded.{program_of};

mod read;

#[derive(Drop)]
pub struct ValidProgram {
    bytes: Vec<u8>,
    ghost loads: { EncodingOf (load (program_of bytes.items)) bytes.items },
}
