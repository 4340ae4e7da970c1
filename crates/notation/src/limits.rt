// The limits of document 01, and the number that raises a position.

// The most steps that a run may count: 2^62.
pub const STEPS: u64 = 4611686018427387904;

// The most symbols of a word.
pub const WORD: usize = 1048576;

// The most cells of a tape's buffer: 2^30.
pub const CELLS: usize = 1073741824;

// The most run places of a side.
pub const RUNS: usize = 1048576;

// By how many cells a side of a run-length tape may exceed the steps: 2^20.
pub const SLACK: u64 = 1048576;

// The longest interval of a timeline: 2^63.
pub const INTERVAL: u64 = 9223372036854775808;

// Position 0, raised by 2^63.
pub const RAISED_ZERO: u64 = 9223372036854775808;
