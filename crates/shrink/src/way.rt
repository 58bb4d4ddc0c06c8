// What a statement is replaced by.
ghost use Rattle.std.specs.Prelude.{◌≡◌, ◌≢◌};
ghost use Rattle.shrink.specs.declared.way.Way.TheVariants.{Nothing, First, Second};

#[derive(Clone, Copy, PartialEq, Eq, Debug)]
pub enum Way {
    // The statement that does nothing,
    Nothing,
    // its first part,
    First,
    // or its second.
    Second,
}

impl Way {
    pub const ALL: [Way; 3] = [Way::Nothing, Way::First, Way::Second];
}

// The ways by number: each but those of nothing and of the second part is that of the first.
impl From<u8> for Way {
    ghost from_gives = { λ n way. (n ≡ 0 → way ≡ Nothing) × (n ≡ 2 → way ≡ Second) × (n ≢ 0 → n ≢ 2 → way ≡ First) };

    fn from(n: u8) -> Way {
        match n {
            0 => Way::Nothing,
            2 => Way::Second,
            _ => Way::First,
        }
    }
}
