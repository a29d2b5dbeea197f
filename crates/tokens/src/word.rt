// What a word is, by the list of the reserved words.
ghost use Rattle.std.specs.Prelude.{◌≡◌, ◌≤◌, length};
ghost use Rattle.meaning.specs.Memory.{number_of};
ghost use Rattle.meaning.specs.Tokens.{reserved};
ghost use Rattle.tokens.specs.Lexing.{Word, word_kind, row_bytes, rows, row_kind, spelled, letters};

use crate::byte_at;
use layout::token;
use operators::int_of;

// Document 01's reserved words, in its order, and document 02's `float`: a row for each, filled up with spaces. Their tokens are numbered
// in this order, from `token::INT` on.
const RESERVED: [[u8; ROW]; 11] = [
    *b"int         ",
    *b"bool        ",
    *b"block       ",
    *b"if          ",
    *b"else        ",
    *b"while       ",
    *b"scalar      ",
    *b"current_mask",
    *b"true        ",
    *b"false       ",
    *b"float       ",
];

// The bytes of a row.
const ROW: usize = 12;

// Letters are compared four at a time, as a number: the walk over the rows is then compiled to a choice among numbers.
const PART: usize = 4;

// Four spaces, as a number.
const SPACES: u32 = 0x20202020;

// What a word is: a reserved word, or a name. Names of one letter, and words of at most four, are so frequent that they are told first.
pub fn kind(word: &[u8]) -> u32
    requires { Word word.now }
    ensures { result ≡ word_kind word.now }
{
    let len = word.len();
    if (len < 2) | (ROW < len) {
        return token::NAME;
    }
    let first = letters(word, 0);
    if len <= PART {
        return row_kind(&RESERVED, first, SPACES, SPACES);
    }
    let second = letters(word, PART);
    let third = letters(word, 2 * PART);
    row_kind(&RESERVED, first, second, third)
}

// What the reserved word is that has these letters, and a name where none has them: the rows are tried from the first to the last.
fn row_kind(list: &[[u8; ROW]], first: u32, second: u32, third: u32) -> u32
    requires { list.now ≡ rows row_bytes reserved }
    ensures { result ≡ row_kind first second third }
{
    for (i, row) in list.iter().enumerate() {
        if spells(row, first, second, third) {
            return token::INT + i as u32;
        }
    }
    token::NAME
}

// Does a row have these letters? Most rows differ in the first four.
fn spells(row: &[u8; ROW], first: u32, second: u32, third: u32) -> bool
    ensures { result ≡ spelled row.now first second third }
{
    let one = int_of(&row[0..PART]);
    if one != first {
        return false;
    }
    let two = int_of(&row[PART..2 * PART]);
    let three = int_of(&row[2 * PART..ROW]);
    (two == second) & (three == third)
}

// Four letters of a word as a number, with spaces after its end.
fn letters(word: &[u8], from: usize) -> u32
    requires { from ≤ row_bytes }
    ensures { result ≡ number_of (letters word.now from) }
{
    if from + PART <= word.len() {
        return int_of(&word[from..from + PART]);
    }
    if word.len() <= from {
        return SPACES;
    }
    let a = byte_at(word, from, b' ');
    let b = byte_at(word, from + 1, b' ');
    let c = byte_at(word, from + 2, b' ');
    let d = byte_at(word, from + 3, b' ');
    int_of(&[a, b, c, d])
}
