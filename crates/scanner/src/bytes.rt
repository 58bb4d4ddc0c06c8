// Bytes and numbers of a text, by position.
ghost use Rattle.scanner.specs.Bytes.{ByteRead, NumberRead};

// The byte at `pos`, if the text reaches so far.
pub fn byte_at(text: &[u8], pos: usize) -> Option<u8>
    ensures { ByteRead text.now pos result }
{
    text.get(pos).copied()
}

// The number in the eight bytes from `pos` on, the highest byte first.
pub fn read_number(text: &[u8], pos: usize) -> Option<u64>
    ensures { NumberRead text.now pos result }
{
    let (_, rest) = text.split_at_checked(pos)?;
    let bytes = rest.first_chunk::<8>()?;
    Some(u64::from_be_bytes(*bytes))
}
