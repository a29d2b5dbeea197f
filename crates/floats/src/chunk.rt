// Chunks of 16 singles by value: operators between them, lane by lane, and lanes as they are stored.
ghost use Rattle.std.specs.Prelude.{◌≡◌};
ghost use mathlib.Core.List.{map, zip_with};
ghost use Rattle.meaning.specs.Floats.{one_nan, negated};
ghost use Rattle.meaning.specs.Running.{float_binary};
ghost use Rattle.operators.specs.Operators.{Sum};
ghost use Rattle.floats.specs.Comparisons.{Compares};

use meaning::Binary;
use std::array;

// `+`, `-` or `*`, lane by lane.
pub fn sums(operator: Binary, x: [u32; 16], y: [u32; 16]) -> [u32; 16]
    requires { Sum operator }
    ensures { result ≡ zip_with (float_binary operator) x y }
{
    array::from_fn(|i| crate::sum(operator, x[i], y[i]))
}

// A comparison, lane by lane.
pub fn orders(operator: Binary, x: [u32; 16], y: [u32; 16]) -> [u32; 16]
    requires { Compares operator }
    ensures { result ≡ zip_with (float_binary operator) x y }
{
    array::from_fn(|i| crate::order(operator, x[i], y[i]))
}

// Unary `-`, lane by lane.
pub fn minuses(x: [u32; 16]) -> [u32; 16]
    ensures { result ≡ map negated x }
{
    array::from_fn(|i| crate::minus(x[i]))
}

// Lanes as they are stored.
pub fn one_nans(x: [u32; 16]) -> [u32; 16]
    ensures { result ≡ map one_nan x }
{
    array::from_fn(|i| crate::one_nan(x[i]))
}
