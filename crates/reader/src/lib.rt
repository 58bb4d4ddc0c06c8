// Reads commands from bytes: it accepts just the encodings of valid commands.

#![tactic(auto)]

ghost use Rattle.std.specs.Prelude.{◌≡◌, nat_lt};
ghost use Rattle.scanner.specs.Bytes.{ByteAt};
ghost use Rattle.reader.specs.Request.{Reads};

mod load;

pub use load::Header;
use load::read_header;
use program::VARIABLES;
use scanner::byte_at;
pub use scanner::read_number;

// What a text asks for.
#[derive(Clone, Copy)]
pub enum Request {
    Load(Header),
    Alarms,
    AtEnd(u64),
}

fn is_variable(x: u64) -> bool
    ensures { result ≡ nat_lt x 64 }
{
    x < VARIABLES
}

fn read_load(text: &[u8]) -> Option<Request>
    requires { ByteAt text.now 0 1 }
    ensures { Reads text.now result }
{
    let header = read_header(text)?;
    Some(Request::Load(header))
}

fn read_alarms(text: &[u8]) -> Option<Request>
    requires { ByteAt text.now 0 2 }
    ensures { Reads text.now result }
{
    if text.len() == 1 {
        Some(Request::Alarms)
    } else {
        None
    }
}

fn read_at_end(text: &[u8]) -> Option<Request>
    requires { ByteAt text.now 0 3 }
    ensures { Reads text.now result }
{
    if text.len() != 2 {
        return None;
    }
    let x = text[1] as u64;
    if is_variable(x) {
        Some(Request::AtEnd(x))
    } else {
        None
    }
}

// The command that a text encodes, if it is valid. Its first byte is matched here, at the one place where it is read.
pub fn read_command(text: &[u8]) -> Option<Request>
    ensures { Reads text.now result }
{
    match byte_at(text, 0)? {
        1 => read_load(text),
        2 => read_alarms(text),
        3 => read_at_end(text),
        _ => None,
    }
}
