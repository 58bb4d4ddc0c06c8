// Steps over the parts of an encoded program, and says of each whether it is valid.

#![tactic(auto)]

mod bytes;
mod scan;

pub use bytes::{byte_at, read_number};
pub use scan::{StmtEnd, scan_stmt};
