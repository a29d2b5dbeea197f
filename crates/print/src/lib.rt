// What the program `show` prints, as bytes in a lent page: the four numbers of an answer, then a memory in rows of hex.
#![tactic(auto)]

ghost use Rattle.std.specs.Prelude.{[], ◌∷◌, ◌++◌, ◌≡◌, ◌+◌, ◌≤◌, ◌<◌, length};
ghost use Rattle.meaning.specs.Services.{answer};
ghost use Rattle.numbers.specs.Sizes.{four_bytes};
ghost use Rattle.print.specs.Shown.{held, digit, decimal, line, hex, rows, row_count, shown};
ghost use Rattle.print.specs.Printed.{Printed};

use numbers::{NUMBER, number_at};

// Where the second, third and fourth number of an answer slice begin.
const PLACE: usize = NUMBER;

const NEED: usize = 2 * NUMBER;

const STEPS: usize = 3 * NUMBER;

// The bytes of a row.
const ROW: usize = 16;

// The digits of decimal and of lower-case hex.
const DIGITS: [u8; 16] = [
    b'0', b'1', b'2', b'3', b'4', b'5', b'6', b'7', b'8', b'9', b'a', b'b', b'c', b'd', b'e', b'f',
];

// The four numbers of an answer slice on one line, then a memory in rows, at the start of the page; answers how many bytes
// that is.
// No Vec and no `write!`: each can fail, and here no printing can, so that the program ends alike on every input.
pub fn put_shown(page: &mut [u8], answer: &[u8], memory: &[u8]) -> usize
    requires { (four_bytes ≤ length answer.now) × (length (shown (held answer.now, memory.now)) ≤ length page.old) }
    ensures { Printed page.old 0 (shown (held answer.now, memory.now)) page.new result }
{
    let code = number_at(answer, 0);
    let place = number_at(answer, PLACE);
    let need = number_at(answer, NEED);
    let steps = number_at(answer, STEPS);
    let at = put_line(page, 0, code, place, need, steps);
    put_rows(page, at, memory)
}

// The byte of a digit below 16.
#[tactic(auto, unfolding(crate::specs::Shown::digit))]
fn digit_of(number: u8) -> u8
    requires { number < 16 }
    ensures { result ≡ digit number }
{
    DIGITS[number as usize]
}

// One byte; like every function here it answers the place after what it printed.
fn put(page: &mut [u8], at: usize, byte: u8) -> usize
    requires { at < length page.old }
    ensures { Printed page.old at (byte ∷ []) page.new result }
{
    page[at] = byte;
    at + 1
}

// A number in decimal: the digits of its tenth, then its last.
fn put_decimal(page: &mut [u8], at: usize, number: u32) -> usize
    requires { at + length (decimal number) ≤ length page.old }
    ensures { Printed page.old at (decimal number) page.new result }
{
    if number < 10 {
        let only = digit_of(number as u8);
        return put(page, at, only);
    }
    let next = put_decimal(page, at, number / 10);
    let last = digit_of((number % 10) as u8);
    put(page, next, last)
}

// A number and the byte that ends it.
fn put_ended(page: &mut [u8], at: usize, number: u32, end: u8) -> usize
    requires { at + length (decimal number) < length page.old }
    ensures { Printed page.old at (decimal number ++ (end ∷ [])) page.new result }
{
    let next = put_decimal(page, at, number);
    put(page, next, end)
}

// Four numbers on one line.
fn put_line(page: &mut [u8], at: usize, code: u32, place: u32, need: u32, steps: u32) -> usize
    requires { at + length (line (answer code place need steps)) ≤ length page.old }
    ensures { Printed page.old at (line (answer code place need steps)) page.new result }
{
    let second = put_ended(page, at, code, b' ');
    let third = put_ended(page, second, place, b' ');
    let fourth = put_ended(page, third, need, b' ');
    put_ended(page, fourth, steps, b'\n')
}

// Two digits for each byte.
fn put_hex(page: &mut [u8], at: usize, bytes: &[u8]) -> usize
    requires { at + length (hex bytes.now) ≤ length page.old }
    ensures { Printed page.old at (hex bytes.now) page.new result }
{
    let mut next = at;
    for &byte in bytes {
        let high = digit_of(byte / 16);
        let low = digit_of(byte % 16);
        let middle = put(page, next, high);
        next = put(page, middle, low);
    }
    next
}

// All rows of a memory.
fn put_rows(page: &mut [u8], at: usize, memory: &[u8]) -> usize
    requires { at + length (rows (row_count memory.now) memory.now) ≤ length page.old }
    ensures { Printed page.old at (rows (row_count memory.now) memory.now) page.new result }
{
    let mut next = at;
    for row in memory.chunks(ROW) {
        let ended = put_hex(page, next, row);
        next = put(page, ended, b'\n');
    }
    next
}
