// The language of the programs that are analysed: its limits, operators and kinds of faults. What programs mean is defined in specs/.

#![tactic(auto)]

mod fault;
mod limits;
mod operator;

pub use fault::Fault;
pub use limits::{
    ALARMS, ARRAYS, AT_END, BYTES, ELEMENTS, FIRST, LIMIT, LOAD, LOOPS, NESTING, OPERATORS, TESTS,
    VARIABLES,
};
pub use operator::Operator;
