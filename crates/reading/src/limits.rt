// Document 01's limits, each once in the code. What they mean stands in crates/meaning/specs/Limits.antt.
pub const MOST_MODEL_WORDS: usize = 4096;

pub const MOST_LOG_WORDS: usize = 16384;

pub const FEWEST_PLACES: usize = 4096;

pub const MOST_VARIABLES: usize = 64;

pub const MOST_ROWS: usize = 64;
// The terms, variables or activities of a row.
pub const MOST_PARTS: usize = 16;

pub const MOST_PREMISES: usize = 16;

pub const MOST_HINTS: usize = 64;

pub const MOST_VALUE: usize = 100000;

pub const MOST_COEFFICIENT: usize = 1000000;

pub const MOST_DURATION: usize = 10000;
// A usage, and a capacity.
pub const MOST_USAGE: usize = 1000000;
