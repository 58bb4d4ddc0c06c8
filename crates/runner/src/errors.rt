// One error turned into another.
ghost use Rattle.std.specs.Prelude.{◌≡◌};
ghost use Rattle.runner.specs.Found.{stop_at};
ghost use Rattle.runner.specs.declared.types.EvalError.TheVariants.{Fault as Failed};
ghost use Rattle.runner.specs.declared.types.RunError.TheVariants.{NoMemory};

use crate::types::{EvalError, RunError, Stop};
use program::Fault;
use std::alloc::{AllocError, AllocFailed};

impl From<Fault> for EvalError {
    ghost from_gives = { λ fault error. error ≡ Failed fault };

    fn from(fault: Fault) -> EvalError {
        EvalError::Fault(fault)
    }
}

// What is found in the statement `stmt`, or why the run stops there.
pub fn at_stmt<T>(stmt: u64, found: Result<T, EvalError>) -> Result<T, Stop>
    ensures { result ≡ stop_at stmt found }
{
    match found {
        Ok(value) => Ok(value),
        Err(EvalError::Fault(fault)) => Err(Stop::Fault { stmt, fault }),
        Err(EvalError::NoProgram) => Err(Stop::NoProgram),
    }
}

// Of memory that runs out, `vec!` gives the one error and `push` the other.
impl From<AllocError> for RunError {
    ghost from_gives = { λ _ r. r ≡ NoMemory };

    fn from(_e: AllocError) -> RunError {
        RunError::NoMemory
    }
}

impl<T: Drop> From<AllocFailed<T>> for RunError {
    ghost from_gives = { λ _ r. r ≡ NoMemory };

    fn from(_e: AllocFailed<T>) -> RunError {
        RunError::NoMemory
    }
}
