// Where white space, words and numbers end, over the bytes of a text.
ghost use Rattle.std.specs.Prelude.{◌≡◌, ℕ, ◌+◌, ◌^◌, ◌<◌, ◌≤◌, Bool, false, length, drop, MatchOption};
ghost use Rattle.lexer.specs.Lexing.{white, letter, digit, word_byte, run, blanks, value};
ghost use Rattle.lexer.specs.Tests.{IsTest};

fn is_white(byte: u8) -> bool
    ensures { result ≡ white byte }
{
    matches!(byte, b' ' | b'\t' | b'\r' | b'\n')
}

pub fn is_digit(byte: u8) -> bool
    ensures { result ≡ digit byte }
{
    byte.is_ascii_digit()
}

// A letter or `_`.
pub fn is_letter(byte: u8) -> bool
    ensures { result ≡ letter byte }
{
    byte.is_ascii_alphabetic() || byte == b'_'
}

// What a word goes on with.
pub fn is_word_byte(byte: u8) -> bool
    ensures { result ≡ word_byte byte }
{
    is_letter(byte) || is_digit(byte)
}

// Past the bytes from `from` on that pass a test.
pub fn run_end<F: Fn(u8) -> bool>(bytes: &[u8], from: usize, passes: F) -> usize
    requires callable { F.IsAlwaysCallable passes }
    requires inside { from ≤ length bytes.now }
    ensures is { (p : ℕ → Bool) → IsTest (F.post passes) p → result ≡ from + run p (drop from bytes.now) }
    ensures within { result ≤ length bytes.now }
{
    from + bytes[from..].iter().take_while(|b| passes(**b)).count()
}

// Past the white space and the comments that begin at `from`.
pub fn blanks_end(bytes: &[u8], from: usize) -> usize
    requires { from ≤ length bytes.now }
    ensures is { result ≡ from + blanks false (drop from bytes.now) }
    ensures within { result ≤ length bytes.now }
{
    let mut at = run_end(bytes, from, |b| is_white(b));
    while at < bytes.len() && bytes[at] == b'#' {
        let line = run_end(bytes, at, |b| b != b'\n');
        at = run_end(bytes, line, |b| is_white(b));
    }
    at
}
