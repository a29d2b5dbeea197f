// The table of declarations in a lent buffer: a row of six words for each.
// No const parameter for the column, here and in `slot`, `operand` and `token`: `row::address(table, i)` says which word it is, and its body
// is one line either way.
ghost use Rattle.std.specs.Prelude.{◌≡◌, ◌+◌, ◌*◌, ◌≤◌, length, set};
ghost use Rattle.meaning.specs.Tree as Tree;
ghost use Rattle.layout.specs.Table.{row_words, word_of, kind_of, place_column, end_column, kind_column, lanes_column, address_column, open_column, with_row};

use crate::{kind_of, put_unit, word};
use meaning::Kind;

// The words of a row, and which of them is what: the place and the end of the name, the kind, the length, the address, and 1 while
// the declaration is open.
pub const WORDS: usize = 6;

pub const PLACE: usize = 0;

pub const END: usize = 1;

pub const KIND: usize = 2;

pub const LANES: usize = 3;

pub const ADDRESS: usize = 4;

pub const OPEN: usize = 5;

// The place of the name of declaration i.
pub fn place(table: &[u32], i: usize) -> usize
    requires { i * row_words + row_words ≤ length table.now }
    ensures { result ≡ word_of table.now i place_column }
{
    word(table, i * WORDS + PLACE)
}

// The end of its name.
pub fn end(table: &[u32], i: usize) -> usize
    requires { i * row_words + row_words ≤ length table.now }
    ensures { result ≡ word_of table.now i end_column }
{
    word(table, i * WORDS + END)
}

// Its kind.
pub fn kind(table: &[u32], i: usize) -> Kind
    requires { i * row_words + row_words ≤ length table.now }
    ensures { result ≡ kind_of (word_of table.now i kind_column) }
{
    kind_of(table[i * WORDS + KIND])
}

// Its length.
pub fn lanes(table: &[u32], i: usize) -> u32
    requires { i * row_words + row_words ≤ length table.now }
    ensures { result ≡ word_of table.now i lanes_column }
{
    table[i * WORDS + LANES]
}

// Its address.
pub fn address(table: &[u32], i: usize) -> u32
    requires { i * row_words + row_words ≤ length table.now }
    ensures { result ≡ word_of table.now i address_column }
{
    table[i * WORDS + ADDRESS]
}

// 1 while it is open.
// No bool: it is a word of a lent row, which `shut` and `put` write, and the clause gives the word.
pub fn open(table: &[u32], i: usize) -> u32
    requires { i * row_words + row_words ≤ length table.now }
    ensures { result ≡ word_of table.now i open_column }
{
    table[i * WORDS + OPEN]
}

// Ends the scope of declaration i.
pub fn shut(table: &mut [u32], i: usize)
    requires { i * row_words + row_words ≤ length table.old }
    ensures { table.new ≡ set table.old (i * row_words + open_column) 0 }
{
    table[i * WORDS + OPEN] = 0;
}

// Writes declaration i, which is open.
pub fn put(table: &mut [u32], i: usize, place: u32, end: u32, kind: Kind, lanes: u32, address: u32)
    requires { i * row_words + row_words ≤ length table.old }
    ensures { table.new ≡ with_row table.old i place end (Tree.kind_number kind) lanes address }
{
    put_unit(table, i * WORDS, place, end, u32::from(kind));
    put_unit(table, i * WORDS + LANES, lanes, address, 1);
}
