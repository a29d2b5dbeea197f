// The stack on which expressions are typed, in a lent buffer: three words for each operand that waits.
ghost use Rattle.std.specs.Prelude.{◌≡◌, ◌+◌, ◌*◌, ◌≤◌, length};
ghost use Rattle.meaning.specs.Tree as Tree;
ghost use Rattle.layout.specs.Table.{kind_of};
ghost use Rattle.layout.specs.Stack.{slot_words, slot_kind, slot_lanes, slot_word, with_slot};

use crate::{kind_of, put_unit};
use meaning::Kind;

// The words of an operand: its kind, its length, and the word that stands for it in the code (a constant's lane, a variable's number,
// an operator's kind).
pub const WORDS: usize = 3;

pub const LANES: usize = 1;

pub const WORD: usize = 2;

// The kind of operand i.
pub fn kind(stack: &[u32], i: usize) -> Kind
    requires { i * slot_words + slot_words ≤ length stack.now }
    ensures { result ≡ kind_of (slot_kind stack.now i) }
{
    kind_of(stack[i * WORDS])
}

// Its length.
pub fn lanes(stack: &[u32], i: usize) -> u32
    requires { i * slot_words + slot_words ≤ length stack.now }
    ensures { result ≡ slot_lanes stack.now i }
{
    stack[i * WORDS + LANES]
}

// Its word.
pub fn word(stack: &[u32], i: usize) -> u32
    requires { i * slot_words + slot_words ≤ length stack.now }
    ensures { result ≡ slot_word stack.now i }
{
    stack[i * WORDS + WORD]
}

// Writes operand i.
pub fn put(stack: &mut [u32], i: usize, kind: Kind, lanes: u32, word: u32)
    requires { i * slot_words + slot_words ≤ length stack.old }
    ensures { stack.new ≡ with_slot stack.old i (Tree.kind_number kind) lanes word }
{
    put_unit(stack, i * WORDS, u32::from(kind), lanes, word);
}
