// How programs end.

#![tactic(auto)]

ghost use Rattle.std.specs.Prelude.{◌≡◌, cond, is_ok, IfOk};
ghost use Rattle.std.specs.Process.{exit_status};

use std::io;
use std::io::Eprint;
use std::process::ExitCode;

/// The status of a program that came to this: 0, or 1 after an error, which is printed behind the program's name.
pub fn exit_code(rt: &impl Eprint, name: &str, outcome: anyhow::Result<()>) -> io::Result<ExitCode>
    ensures { IfOk result (λ code. exit_status code ≡ cond (is_ok outcome) 0 1) }
{
    if let Err(e) = outcome {
        eprintln!(rt; "{name}: {e}")?;
        return Ok(ExitCode::FAILURE);
    }
    Ok(ExitCode::SUCCESS)
}

#[cfg(test)]
mod tests {
    use super::exit_code;
    use anyhow::anyhow;
    use std::process::ExitCode;
    use std::test::Fail;

    #[test]
    fn success_and_failure(rt: HostRuntime) -> Result<(), Fail> {
        assert!(rt; exit_code(&rt, "test", Ok(()))? == ExitCode::SUCCESS);
        assert!(rt; exit_code(&rt, "test", Err(anyhow!("it failed")))? == ExitCode::FAILURE);
        Ok(())
    }
}
