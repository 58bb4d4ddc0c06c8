// The operators of expressions.

ghost use Rattle.std.specs.Prelude.{◌≡◌};
ghost use Rattle.program.specs.Kinds.{operator_code, operator_of};

/// What an expression does with the values of two others.
#[derive(Clone, Copy, PartialEq, Eq, Debug)]
pub enum Operator {
    Sum,
    Difference,
    Product,
    Quotient,
    Remainder,
}

impl Operator {
    /// The number that stands for it in an encoded program.
    pub fn code(self) -> u8
        ensures { result ≡ operator_code self }
    {
        match self {
            Operator::Sum => 0,
            Operator::Difference => 1,
            Operator::Product => 2,
            Operator::Quotient => 3,
            Operator::Remainder => 4,
        }
    }
}

/// The operator with this number; each number above those of the others is a remainder's.
impl From<u64> for Operator {
    ghost from_gives = { λ code op. op ≡ operator_of code };

    fn from(code: u64) -> Operator {
        match code {
            0 => Operator::Sum,
            1 => Operator::Difference,
            2 => Operator::Product,
            3 => Operator::Quotient,
            _ => Operator::Remainder,
        }
    }
}
