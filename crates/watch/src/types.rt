// What a watched pass is given.
use walker::Task;

// What stays the same throughout a watched pass.
#[derive(Clone, Copy)]
pub struct Watch<'a> {
    pub task: Task<'a>,
    // The number of the statement that is watched.
    pub stmt: u64,
}
