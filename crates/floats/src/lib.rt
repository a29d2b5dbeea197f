// One lane of singles, as its 32-bit pattern: each operation is the machine's, rounded once.
#![tactic(auto)]

pub mod chunk;

ghost use Rattle.std.specs.Prelude.{◌≡◌, ◌≤◌};
ghost use Rattle.std.specs.Float.{binary32};
ghost use Rattle.std.specs.Float.Ieee.{to_bits, of_bits};
ghost use Rattle.meaning.specs.Codes.{float_limit};
ghost use Rattle.meaning.specs.Floats.{is_nan, one_nan, negated, whole_float};
ghost use Rattle.meaning.specs.Running.{float_binary};
ghost use Rattle.operators.specs.Operators.{Sum};
ghost use Rattle.floats.specs.Comparisons.{Compares};

use meaning::Binary;
use operators::bit;

// The pattern that every not-a-number is stored as.
const NOT_A_NUMBER: u32 = 0x7FC0_0000;

// Is a pattern a not-a-number's? Without its sign it is above the infinity's.
fn is_nan(pattern: u32) -> bool
    ensures { result ≡ is_nan pattern }
{
    pattern % 0x8000_0000 > 0x7F80_0000
}

// The single that a pattern stands for. Every not-a-number is the one.
fn single(pattern: u32) -> f32
    ensures { result ≡ of_bits binary32 pattern }
{
    if is_nan(pattern) {
        let zero = 0.0f32;
        zero / zero
    } else {
        f32::from_bits(pattern)
    }
}

// The pattern of a single.
fn pattern(x: f32) -> u32
    ensures { result ≡ to_bits binary32 x }
{
    if x.is_nan() {
        NOT_A_NUMBER
    } else {
        f32::to_bits(x)
    }
}

// One lane of `+`, `-` or `*`.
pub fn sum(operator: Binary, x: u32, y: u32) -> u32
    requires { Sum operator }
    ensures { result ≡ float_binary operator x y }
{
    let a = single(x);
    let b = single(y);
    match operator {
        Binary::Add => pattern(a + b),
        Binary::Sub => pattern(a - b),
        _ => pattern(a * b),
    }
}

// One lane of a comparison.
pub fn order(operator: Binary, x: u32, y: u32) -> u32
    requires { Compares operator }
    ensures { result ≡ float_binary operator x y }
{
    let a = single(x);
    let b = single(y);
    match operator {
        Binary::Eq => bit(a == b),
        Binary::Ne => bit(a != b),
        Binary::Lt => bit(a < b),
        Binary::Gt => bit(a > b),
        Binary::Le => bit(a <= b),
        _ => bit(a >= b),
    }
}

// One lane of unary `-`.
pub fn minus(x: u32) -> u32
    ensures { result ≡ negated x }
{
    pattern(-single(x))
}

// A lane as it is stored.
pub fn one_nan(x: u32) -> u32
    ensures { result ≡ one_nan x }
{
    if is_nan(x) { NOT_A_NUMBER } else { x }
}

// The constant of a whole number.
pub fn whole(n: u32) -> u32
    requires { n ≤ float_limit }
    ensures { result ≡ whole_float n }
{
    pattern(n as f32)
}
