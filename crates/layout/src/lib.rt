// How lent buffers hold things, and every number of that: tokens, trees and programs, declarations, instructions, the stacks of
// typing and of planning.
#![tactic(auto)]

pub mod head;
pub mod instruction;
pub mod limit;
pub mod operand;
pub mod planned;
pub mod row;
pub mod size;
pub mod slot;
pub mod tag;
pub mod token;

ghost use Rattle.std.specs.Prelude.{◌≡◌, ◌+◌, ◌≤◌, ◌<◌, length, get_or};
ghost use Rattle.std.proofs.lemmas.List.Edits.{sets};
ghost use Rattle.layout.specs.Words.{unit_words, unit};
ghost use Rattle.layout.specs.Table.{kind_of};

use meaning::{Kind, Refusal};

// How far a stage of judging came: how many tokens, declarations or operands that wait there are so far, and how many words were written.
#[derive(Clone, Copy)]
pub struct Reached {
    pub count: usize,
    pub size: usize,
}

// Why a text is refused, and where.
#[derive(Clone, Copy)]
pub struct Refused {
    pub refusal: Refusal,
    pub place: usize,
}

// What a stage of judging answers.
pub type Stage = Result<Reached, Refused>;

// The words of a unit.
pub const UNIT: usize = 3;

// Writes the three words of a unit at word n of some.
pub fn put_unit(words: &mut [u32], n: usize, a: u32, b: u32, c: u32)
    requires { n + unit_words ≤ length words.old }
    ensures { words.new ≡ sets words.old n (unit a b c) }
{
    words[n] = a;
    words[n + 1] = b;
    words[n + 2] = c;
}

// Word i of some.
pub fn word(words: &[u32], i: usize) -> usize
    requires { i < length words.now }
    ensures { result ≡ get_or words.now i 0 }
{
    words[i] as usize
}

// The kind of a number.
// No `From<u32>`: only the numbers of kinds stand for one, and what another gives is the layout's choice (`kind_of`), not the kind's.
pub fn kind_of(number: u32) -> Kind
    ensures { result ≡ kind_of number }
{
    match number {
        0 => Kind::Int,
        1 => Kind::Bool,
        _ => Kind::Float,
    }
}
