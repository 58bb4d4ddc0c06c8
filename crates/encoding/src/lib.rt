// The encoding of commands: no two are encoded alike, and each can be read back.

#![tactic(auto)]

ghost use Rattle.encoding.specs.Statements.{EncodedOnce, ReadsBack, ReadsOnly};

/// No two valid commands are encoded alike.
pub fn encoded_once() -> u8
    ensures { EncodedOnce }
{
    0
}

/// A valid command is heard from its encoding.
pub fn reads_back() -> u8
    ensures { ReadsBack }
{
    0
}

/// Of any list of numbers, `hear` gives the valid command that it encodes, or says that there is none.
pub fn reads_only() -> u8
    ensures { ReadsOnly }
{
    0
}
