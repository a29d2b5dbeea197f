// How many words the buffers have that hold a text's parts, by document 01's limits (Sizes).
use crate::{UNIT, limit, row, slot, token};

// The tree of the longest text, and its program; its tokens, its end among them.
pub const TREE: usize = limit::TEXT * UNIT;

pub const TOKENS: usize = (limit::TEXT + 1) * token::WORDS;

// The table of as many declarations as a text may have.
pub const TABLE: usize = limit::DECLARATIONS * row::WORDS;

// How many values may wait in an expression: one at each of seven levels of operators for each level of nesting, and one more. The
// stack on which they are typed.
pub const WAITING: usize = 7 * (limit::NESTING + 1) + 1;

pub const STACK: usize = WAITING * slot::WORDS;
