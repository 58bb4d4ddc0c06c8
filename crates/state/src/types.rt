// What is known at a statement, by value.
use interval::Interval;
use program::{ARRAYS, VARIABLES};

// An interval for each variable that a program may have, and one for all elements of each array.
#[derive(Clone, Copy)]
pub struct Env {
    pub values: [Interval; VARIABLES as usize],
    pub arrays: [Interval; ARRAYS as usize],
}

// Nothing comes here, or what does lies so. It has the shape of an option, and keeps the domain's two names: the definitions have them too.
#[derive(Clone, Copy)]
pub enum Abstract {
    Unreached,
    Reached(Env),
}
