// Which word of a statement's head is what, as the specs have it (Heads).
// Its tag, the place of its first token, and how many words follow these three.
pub const TAG: usize = 0;

pub const PLACE: usize = 1;

pub const FOLLOW: usize = 2;

// Where the parts begin: behind the head of braces and `scalar`; of an assignment, `if`, `while` and `put`; of a declaration.
pub const SHORT: usize = 3;

pub const LONG: usize = 6;

pub const DECLARATION: usize = 9;

// A declaration's N and its place, its name's place and end, and the place of its `=`.
// No Option for N and the value: they are words of a lent buffer, 0 where the text has none.
pub const LENGTH: usize = 3;

pub const LENGTH_PLACE: usize = 4;

pub const NAME: usize = 5;

pub const NAME_END: usize = 6;

pub const VALUE: usize = 7;

// An assignment's name's end, and the place of its `=`.
pub const TARGET_END: usize = 3;

pub const EQUALS: usize = 4;

// The number of the variable that a `put` writes.
pub const VARIABLE: usize = 3;

// The words of the condition of `if` and `while`, and of the first branch of `if`.
pub const CONDITION: usize = 3;

pub const BRANCH: usize = 4;
