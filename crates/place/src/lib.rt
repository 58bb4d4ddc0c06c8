// The line and the column of a byte of a text.

#![tactic(auto)]

ghost use Rattle.std.specs.Prelude.{◌≡◌, ℕ, ◌+◌, ◌-◌, ◌<◌, ◌≤◌, min, length, ◌≢◌, slice_index};
ghost use Rattle.place.specs.Lines.{newlines, StandsAt};

// Line and column count from 1, the column in bytes; the line goes from `line_start` to `line_end`, without its line end.
#[derive(Clone, Copy, PartialEq, Eq, Debug)]
pub struct Place {
    pub line: usize,
    pub column: usize,
    pub line_start: usize,
    pub line_end: usize,
}

// How many line ends there are. A `for`, since the library's `count` over a filter takes a branch for each byte, and is four times slower where
// line ends come at random.
fn count_newlines(bytes: &[u8]) -> usize
    ensures is { result ≡ newlines bytes.now }
    ensures within { result ≤ length bytes.now }
{
    let mut count = 0;
    for b in bytes {
        if *b == b'\n' {
            count += 1;
        }
    }
    count
}

// Behind the last line end before `at`.
fn find_start(text: &[u8], at: usize) -> usize
    requires { at ≤ length text.now }
    ensures before { result ≤ at }
    ensures inside { (k : ℕ) → result ≤ k → k < at → slice_index text.now k ≢ 10 }
    ensures opened { 0 < result → slice_index text.now (result - 1) ≡ 10 }
{
    text[..at]
        .iter()
        .rposition(|b| *b == b'\n')
        .map_or(0, |i| i + 1)
}

// How many bytes stand before the first line end.
fn line_len(text: &[u8]) -> usize
    ensures within { result ≤ length text.now }
    ensures inside { (k : ℕ) → k < result → slice_index text.now k ≢ 10 }
    ensures closed { result < length text.now → slice_index text.now result ≡ 10 }
{
    text.iter().position(|b| *b == b'\n').unwrap_or(text.len())
}

// The first line end from `at` on, or the end of the text.
fn find_end(text: &[u8], at: usize) -> usize
    requires { at ≤ length text.now }
    ensures after { at ≤ result }
    ensures within { result ≤ length text.now }
    ensures inside { (k : ℕ) → at ≤ k → k < result → slice_index text.now k ≢ 10 }
    ensures closed { result < length text.now → slice_index text.now result ≡ 10 }
{
    at + line_len(&text[at..])
}

// The place of a byte; one past the end stands at the end.
pub fn place_of(text: &[u8], offset: usize) -> Place
    ensures { StandsAt text.now (min offset (length text.now)) result }
{
    let at = offset.min(text.len());
    let line_start = find_start(text, at);
    let line_end = find_end(text, at);
    let line = count_newlines(&text[..at]) + 1;
    Place {
        line,
        column: at - line_start + 1,
        line_start,
        line_end,
    }
}
