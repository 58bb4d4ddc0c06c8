// The limits of the language, each said once.

/// Numbers are below this.
pub const LIMIT: u64 = 1 << 32;

/// A program has at most so many variables,
pub const VARIABLES: u64 = 64;

/// so many arrays,
pub const ARRAYS: u64 = 16;

/// each of at most so many elements,
pub const ELEMENTS: u64 = 65536;

/// and so many bytes as it is encoded.
pub const BYTES: usize = 32768;

/// Branches and loops are at most so deep in each other,
pub const NESTING: u64 = 32;

/// loops alone so deep.
pub const LOOPS: u64 = 3;

/// A condition is made of at most so many tests.
pub const TESTS: u64 = 63;

/// There are so many operators.
pub const OPERATORS: u64 = 5;

/// The first statement has this number.
pub const FIRST: u64 = 1;

/// A command begins with one of these bytes: it loads a program,
pub const LOAD: u8 = 1;

/// asks for the alarms,
pub const ALARMS: u8 = 2;

/// or where a variable lies at the end.
pub const AT_END: u8 = 3;
