// What a step tells. A fixed interface, which C has as one number: so the numbers of refusals stay.
#[derive(Clone, Copy)]
pub enum Told {
    // So many bytes are shown.
    Shows(u64),
    // The command has ended.
    Done,
    // The number of the refusal; 0 if the step was not asked for properly.
    No(u64),
}
