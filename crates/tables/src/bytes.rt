// Numbers written as bytes.
ghost use Rattle.std.specs.Prelude.{◌≡◌, ◌+◌, ◌≤◌, ◌++◌, length, take, drop};
ghost use Rattle.program.specs.Basics.{eight};

// Eight bytes from `at` on, the highest first.
pub fn write_number(out: &mut [u8], at: usize, n: u64)
    requires { at + 8 ≤ length out.old }
    ensures { out.new ≡ take at out.old ++ (eight n ++ drop (at + 8) out.old) }
{
    out[at..at + 8].copy_from_slice(&n.to_be_bytes());
}
