// Random numbers: a counter that goes on by a fixed step, and a mix of its bits.
ghost use Rattle.std.specs.Prelude.{◌≡◌, ◌%◌, ◌<◌, ◌≤◌};
ghost use Rattle.random.specs.Random.{advanced, scrambled, drawn};

#[derive(Clone, Copy)]
pub struct Random {
    state: u64,
}

// The bits of `z` mixed with those `by` places higher, times a factor.
fn scramble(z: u64, by: u32, factor: u64) -> u64
    requires { by < 64 }
    ensures { result ≡ scrambled by factor z }
{
    (z ^ (z >> by)).wrapping_mul(factor)
}

impl Random {
    pub fn new(seed: u64) -> Random
        ensures { result.state ≡ seed }
    {
        Random { state: seed }
    }

    // The next random number, of 64 bits.
    pub fn draw(&mut self) -> u64
        ensures state { self.new.state ≡ advanced self.old.state }
        ensures value { result ≡ drawn (advanced self.old.state) }
    {
        self.state = self.state.wrapping_add(0x9e37_79b9_7f4a_7c15);
        let first = scramble(self.state, 30, 0xbf58_476d_1ce4_e5b9);
        let second = scramble(first, 27, 0x94d0_49bb_1331_11eb);
        second ^ (second >> 31)
    }

    // A random number below `n`; 0 if `n` is 0.
    pub fn below(&mut self, n: u64) -> u64
        ensures state { self.new.state ≡ advanced self.old.state }
        ensures value { 0 < n → result ≡ drawn (advanced self.old.state) % n }
        ensures less { 0 < n → result < n }
        ensures bound { result ≤ n }
    {
        let x = self.draw();
        if n == 0 { 0 } else { x % n }
    }

    // True once in `n` times.
    pub fn one_in(&mut self, n: u64) -> bool {
        self.below(n) == 0
    }
}
