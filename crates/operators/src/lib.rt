// One lane: operators on its word, and its word from and to its bytes.
#![tactic(auto)]

ghost use Rattle.std.specs.Prelude.{◌≡◌, length};
ghost use Rattle.meaning.specs.declared.Kind.TheVariants.{Int as int};
ghost use Rattle.meaning.specs.Memory.{truth, bit as lane_bit, lane_of, bytes_of, bool_byte};
ghost use Rattle.meaning.specs.Running.{less, word_unary, word_binary};
ghost use Rattle.operators.specs.Operators.{int_size, Sum, Order, Join};

use meaning::{Binary, Unary};

// The bytes of an int.
pub const INT: usize = meaning::WORD;

// Is x below y, as signed numbers?
#[tactic(auto, unfolding(meaning::specs::Running::less, meaning::specs::Running::word))]
fn below(x: u32, y: u32) -> bool
    ensures { result ≡ less x y }
{
    x.wrapping_add(0x8000_0000) < y.wrapping_add(0x8000_0000)
}

// A truth as a lane.
#[tactic(auto, unfolding(meaning::specs::Memory::bit))]
pub fn bit(c: bool) -> u32
    ensures { result ≡ lane_bit c }
{
    u32::from(c)
}

// One lane of `+`, `-` or `*`.
// No enum of its own for each group of operators, here and below: they are one enum, by which the definitions go.
#[tactic(auto, unfolding(meaning::specs::Running::word_binary, meaning::specs::Running::word))]
pub fn sum(operator: Binary, x: u32, y: u32) -> u32
    requires { Sum operator }
    ensures { result ≡ word_binary operator x y }
{
    match operator {
        Binary::Add => x.wrapping_add(y),
        Binary::Sub => x.wrapping_sub(y),
        _ => x.wrapping_mul(y),
    }
}

// One lane of `<`, `>`, `<=` or `>=`.
#[tactic(auto, unfolding(meaning::specs::Running::word_binary))]
pub fn order(operator: Binary, x: u32, y: u32) -> u32
    requires { Order operator }
    ensures { result ≡ word_binary operator x y }
{
    match operator {
        Binary::Lt => bit(below(x, y)),
        Binary::Gt => bit(below(y, x)),
        Binary::Le => bit(!below(y, x)),
        _ => bit(!below(x, y)),
    }
}

// One lane of `|`, `^`, `&`, `==` or `!=`.
#[tactic(auto, unfolding(meaning::specs::Running::word_binary))]
pub fn join(operator: Binary, x: u32, y: u32) -> u32
    requires { Join operator }
    ensures { result ≡ word_binary operator x y }
{
    match operator {
        Binary::Or => x | y,
        Binary::Xor => x ^ y,
        Binary::And => x & y,
        Binary::Eq => bit(x == y),
        _ => bit(x != y),
    }
}

// One lane of unary `-`, `~` or `!`.
#[tactic(auto, unfolding(meaning::specs::Running::word_unary, meaning::specs::Running::word), using(crate::proofs::Words::is_zero))]
pub fn sign(operator: Unary, x: u32) -> u32
    ensures { result ≡ word_unary operator x }
{
    match operator {
        Unary::Neg => x.wrapping_neg(),
        Unary::Inv => !x,
        Unary::Not => bit(x == 0),
    }
}

// The number that four bytes hold.
// No one function with `numbers`, here and below: that crate goes to a place among an answer's numbers, these over a lane's own four bytes.
pub fn int_of(four: &[u8]) -> u32
    requires { length four.now ≡ int_size }
    ensures { result ≡ lane_of int four.now }
{
    u32::from_le_bytes([four[0], four[1], four[2], four[3]])
}

// Four bytes that hold a number.
pub fn put_int(four: &mut [u8], x: u32)
    requires { length four.old ≡ int_size }
    ensures { four.new ≡ bytes_of int x }
{
    four.copy_from_slice(&x.to_le_bytes());
}

// The byte of a bool lane.
#[tactic(auto, using(crate::proofs::Bytes::byte_of_truth))]
pub fn truth_byte(x: u32) -> u8
    ensures { result ≡ bool_byte (truth x) }
{
    u8::from(x != 0)
}
