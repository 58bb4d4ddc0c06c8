// Bytes and numbers read from a text, past whose end there are zeros.

#![tactic(auto)]

ghost use Rattle.std.specs.Prelude.{◌≡◌, ◌+◌, ◌≤◌, length, slice_index};
ghost use Rattle.encoding.specs.Standing.{word_at};

use scanner::read_number;

// The byte at a position; past the end 0.
pub fn byte_at(text: &[u8], pos: usize) -> u8
    ensures { result ≡ slice_index text.now pos }
{
    scanner::byte_at(text, pos).unwrap_or(0)
}

// The number in the eight bytes at a position, the highest first; 0 where there are fewer.
pub fn word_at(text: &[u8], pos: usize) -> u64
    ensures { pos + 8 ≤ length text.now → result ≡ word_at text.now pos }
{
    read_number(text, pos).unwrap_or(0)
}
