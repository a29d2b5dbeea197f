// Tokens in a lent buffer: a unit of three words for each, what it is, its place, and its value. What a token is has the number that
// meaning's Tokens gives it.
ghost use Rattle.std.specs.Prelude.{◌≡◌, ◌+◌, ◌*◌, ◌≤◌, length};
ghost use Rattle.layout.specs.Tokens.{token_words, kind_at, place_at, value_at};

// The words of a token, the first of which says what it is, and which of the others is what.
pub const WORDS: usize = 3;

pub const PLACE: usize = 1;

pub const VALUE: usize = 2;

// What a token is.
// No enum: a token stands as words in a lent buffer, in which those of the program come later, and meaning's Tokens numbers what it is.
pub const END: u32 = 0;

pub const NUMBER: u32 = 1;

pub const NAME: u32 = 2;

pub const FLOAT_NUMBER: u32 = 3;

pub const INT: u32 = 16;

pub const BOOL: u32 = 17;

pub const BLOCK: u32 = 18;

pub const IF: u32 = 19;

pub const ELSE: u32 = 20;

pub const WHILE: u32 = 21;

pub const SCALAR: u32 = 22;

pub const CURRENT_MASK: u32 = 23;

pub const TRUE: u32 = 24;

pub const FALSE: u32 = 25;

pub const FLOAT: u32 = 26;

pub const EQUAL: u32 = 48;

pub const UNEQUAL: u32 = 49;

pub const AT_MOST: u32 = 50;

pub const AT_LEAST: u32 = 51;

pub const SEMICOLON: u32 = 52;

pub const OPEN_BRACE: u32 = 53;

pub const CLOSE_BRACE: u32 = 54;

pub const OPEN: u32 = 55;

pub const CLOSE: u32 = 56;

pub const OPEN_BRACKET: u32 = 57;

pub const CLOSE_BRACKET: u32 = 58;

pub const BECOMES: u32 = 59;

pub const BELOW: u32 = 60;

pub const ABOVE: u32 = 61;

pub const PLUS: u32 = 62;

pub const MINUS: u32 = 63;

pub const TIMES: u32 = 64;

pub const AND: u32 = 65;

pub const OR: u32 = 66;

pub const XOR: u32 = 67;

pub const INVERSE: u32 = 68;

pub const NOT: u32 = 69;

// What the token `at` is.
pub fn kind(tokens: &[u32], at: usize) -> u32
    requires { at * token_words + token_words ≤ length tokens.now }
    ensures { result ≡ kind_at tokens.now at }
{
    tokens[at * WORDS]
}

// Its place.
pub fn place(tokens: &[u32], at: usize) -> u32
    requires { at * token_words + token_words ≤ length tokens.now }
    ensures { result ≡ place_at tokens.now at }
{
    tokens[at * WORDS + PLACE]
}

// Its value: what a number is worth, and the end of a name.
pub fn value(tokens: &[u32], at: usize) -> u32
    requires { at * token_words + token_words ≤ length tokens.now }
    ensures { result ≡ value_at tokens.now at }
{
    tokens[at * WORDS + VALUE]
}
