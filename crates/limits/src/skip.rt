// Steps over the parts of an encoded program that need not be valid: what stands behind each.
ghost use Rattle.std.specs.Prelude.{◌≤◌, length, IfSome};

// Past an expression. A loop that counts those to come, since such bytes may nest deep.
pub fn skip_expr(code: &[u8]) -> Option<&[u8]>
    ensures { IfSome result (λ rest. length rest.now ≤ length code.now) }
{
    let mut rest = code;
    let mut left: usize = 1;
    while left > 0 {
        rest = match rest {
            [0, behind @ ..] => {
                left -= 1;
                behind.get(8..)?
            }
            [1, _, behind @ ..] => {
                left -= 1;
                behind
            }
            [2, _, behind @ ..] => {
                left = left.saturating_add(1);
                behind
            }
            [3, _, behind @ ..] => behind,
            _ => return None,
        };
    }
    Some(rest)
}

// Past two expressions.
pub fn skip_exprs(code: &[u8]) -> Option<&[u8]>
    ensures { IfSome result (λ rest. length rest.now ≤ length code.now) }
{
    skip_expr(skip_expr(code)?)
}

// Past a test, and how many tests it is made of.
pub fn skip_test(code: &[u8]) -> Option<(&[u8], u64)>
    ensures { IfSome result (λ p. length p.0.now ≤ length code.now) }
{
    let mut rest = code;
    let mut left: usize = 1;
    let mut tests: u64 = 0;
    while left > 0 {
        rest = match rest {
            [0 | 1, behind @ ..] => {
                left -= 1;
                skip_exprs(behind)?
            }
            [2, behind @ ..] => behind,
            [3 | 4, behind @ ..] => {
                left = left.saturating_add(1);
                behind
            }
            _ => return None,
        };
        tests = tests.saturating_add(1);
    }
    Some((rest, tests))
}
