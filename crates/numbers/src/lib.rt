// 32-bit little-endian numbers in a lent slice of bytes: those of an answer, or of a declaration of the listing.
#![tactic(auto)]

ghost use Rattle.std.specs.Prelude.{◌≡◌, [], ◌∷◌, ◌+◌, ◌≤◌, length, take, drop};
ghost use Rattle.std.proofs.lemmas.List.Edits.{sets};
ghost use Rattle.meaning.specs.Memory.{little_endian, number_of};
ghost use Rattle.meaning.specs.Services.{in_a_row};
ghost use Rattle.numbers.specs.Sizes.{number_bytes, four_bytes};

use meaning::WORD;

// The bytes of a number, and of four in a row.
pub const NUMBER: usize = WORD;

pub const FOUR: usize = 4 * NUMBER;

// Writes the bytes of a number.
pub fn put_number(bytes: &mut [u8], at: usize, number: u32)
    requires { at + number_bytes ≤ length bytes.old }
    ensures { bytes.new ≡ sets bytes.old at (little_endian number_bytes number) }
{
    bytes[at..at + NUMBER].copy_from_slice(&number.to_le_bytes());
}

// The number that stands at a place.
pub fn number_at(bytes: &[u8], at: usize) -> u32
    requires { at + number_bytes ≤ length bytes.now }
    ensures { result ≡ number_of (take number_bytes (drop at bytes.now)) }
{
    u32::from_le_bytes([bytes[at], bytes[at + 1], bytes[at + 2], bytes[at + 3]])
}

// Writes the bytes of four numbers in a row.
pub fn put_four(bytes: &mut [u8], at: usize, a: u32, b: u32, c: u32, d: u32)
    requires { at + four_bytes ≤ length bytes.old }
    ensures { bytes.new ≡ sets bytes.old at (in_a_row (a ∷ b ∷ c ∷ d ∷ [])) }
{
    put_number(bytes, at, a);
    put_number(bytes, at + NUMBER, b);
    put_number(bytes, at + 2 * NUMBER, c);
    put_number(bytes, at + 3 * NUMBER, d);
}
