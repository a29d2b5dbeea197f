// Document 01's limits, as meaning's Codes has them.
// Bytes of a text.
pub const TEXT: usize = 4096;

// Bytes of a name.
pub const NAME: usize = 31;

// The greatest number.
pub const NUMBER: u64 = 2147483647;

// The greatest whole number of a float's constant.
pub const FLOAT: u64 = 16777216;

// Levels of nesting.
pub const NESTING: usize = 32;

// Declarations of a text.
pub const DECLARATIONS: usize = 64;
