// Text to tokens, in one pass from left to right. The reserved words and the signs are lists, in `word` and in `sign`.
#![tactic(auto)]

mod sign;
mod word;

ghost use Rattle.std.specs.Prelude.{◌≡◌, [], ◌∷◌, Bool, true, ℕ, ◌+◌, ◌<◌, ◌≤◌, length, get_or};
ghost use Rattle.meaning.specs.Codes.{text_limit, number_limit};
ghost use Rattle.meaning.specs.Tokens.{space, letter, digit, run_of, decimal, word, piece};
ghost use Rattle.tokens.specs.Lexing.{Tells, number_in, numeral_of, constant_of, Word, lexeme, TokenRoom, Lexes};

use floats::whole;
use layout::{Reached, Refused, Stage, limit, put_unit, token};
use meaning::Refusal;

// The text's tokens and its end into the buffer: how many there are, the end among them, and their words; or the first refusal.
pub fn lex(text: &[u8], tokens: &mut [u32]) -> Stage
    requires { TokenRoom text.now tokens.old }
    ensures { Lexes text.now result tokens.new }
{
    if limit::TEXT < text.len() {
        return Err(Refused {
            refusal: Refusal::TextTooLong,
            place: 0,
        });
    }
    let mut at = 0;
    let mut n = 0;
    // No `for`: the step is the length of what stands at the place.
    while at < text.len() {
        let bad = Refused {
            refusal: Refusal::BadBytes,
            place: at,
        };
        match next(&text[at..], at).ok_or(bad)? {
            Lexeme::Gap(len) => {
                at += len;
            }
            Lexeme::Token(kind, value, len) => {
                put_unit(tokens, n * token::WORDS, kind, at as u32, value);
                n += 1;
                at += len;
            }
        }
    }
    put_unit(tokens, n * token::WORDS, token::END, at as u32, 0);
    Ok(Reached {
        count: n + 1,
        size: n * token::WORDS + token::WORDS,
    })
}

// What stands at a place of the text: so many bytes between tokens; or a token's kind, value and length.
#[derive(Clone, Copy)]
enum Lexeme {
    Gap(usize),
    Token(u32, u32, usize),
}

// What s starts with, at place `at`, if a rule allows it: the tests of document 01, in the order in which the definition has them.
fn next(s: &[u8], at: usize) -> Option<Lexeme>
    requires { (0 < length s.now) × (at + length s.now ≤ text_limit) }
    ensures { result ≡ lexeme at (piece s.now) }
{
    let b = s[0];
    if is_space(b) {
        let len = run(s, is_space);
        return Some(Lexeme::Gap(len));
    }
    let c = byte_at(s, 1, 0);
    if (b == b'/') & (c == b'/') {
        let len = run(s, |b| b != b'\n');
        return Some(Lexeme::Gap(len));
    }
    if is_letter(b) {
        let len = run(s, |b| is_letter(b) | is_digit(b));
        return word_of(&s[..len], at);
    }
    if is_digit(b) {
        return numeral(s);
    }
    sign::longest(b, c)
}

// The byte at a place, and another past the end.
fn byte_at(s: &[u8], i: usize, other: u8) -> u8
    ensures { result ≡ get_or s.now i other }
{
    s.get(i).copied().unwrap_or(other)
}

// A reserved word or a name, at place `at`; beside a name stands its end.
fn word_of(s: &[u8], at: usize) -> Option<Lexeme>
    requires { Word s.now × (at + length s.now ≤ text_limit) }
    ensures { result ≡ lexeme at (word s.now) }
{
    let kind = word::kind(s);
    let len = s.len();
    if kind != token::NAME {
        return Some(Lexeme::Token(kind, 0, len));
    }
    if limit::NAME < len {
        return None;
    }
    Some(Lexeme::Token(token::NAME, (at + len) as u32, len))
}

// A number, or a float's constant where a point follows its digits directly.
fn numeral(s: &[u8]) -> Option<Lexeme>
    requires { 0 < run_of digit s.now }
    ensures { (at : ℕ) → result ≡ lexeme at (numeral_of s.now) }
{
    let len = run(s, is_digit);
    if byte_at(s, len, 0) == b'.' {
        return constant(&s[..len], &s[len + 1..]);
    }
    let value = number_of(&s[..len])?;
    Some(Lexeme::Token(token::NUMBER, value, len))
}

// A float's constant, from the digits of its whole number and the bytes behind its point: its value is its pattern.
fn constant(s: &[u8], behind: &[u8]) -> Option<Lexeme>
    requires { (0 < length s.now) × (run_of digit s.now ≡ length s.now) }
    ensures { (at : ℕ) → result ≡ lexeme at (constant_of s.now behind.now) }
{
    let more = run(behind, is_digit);
    if !((more == 1) & (byte_at(behind, 0, 0) == b'0')) {
        return None;
    }
    let Some(n) = number_of(s) else {
        // No `?`: must-fail/constant-leading-zero returns another answer here.
        return None;
    };
    if limit::FLOAT < n as u64 {
        return None;
    }
    let pattern = whole(n);
    Some(Lexeme::Token(token::FLOAT_NUMBER, pattern, s.len() + 2))
}

// The number that some digits are, if they are those of one.
fn number_of(s: &[u8]) -> Option<u32>
    requires { (0 < length s.now) × (run_of digit s.now ≡ length s.now) }
    ensures { result ≡ number_in s.now }
{
    if !((s.len() == 1) | (s[0] != b'0')) {
        return None;
    }
    let mut value: u32 = 0;
    for &b in s {
        let more = with_digit(value, b);
        if limit::NUMBER < more {
            return None;
        }
        value = more as u32;
    }
    Some(value)
}

// A number with one more digit.
fn with_digit(value: u32, b: u8) -> u64
    requires { (digit b ≡ true) × (value ≤ number_limit) }
    ensures { result ≡ decimal value (b ∷ []) }
{
    10 * value as u64 + (b - b'0') as u64
}

// How many bytes s starts with that pass a test.
fn run<F: Fn(u8) -> bool>(s: &[u8], passes: F) -> usize
    requires { F.IsAlwaysCallable passes }
    ensures { (test : ℕ → Bool) → Tells (F.post passes) test → result ≡ run_of test s.now }
{
    for (i, &b) in s.iter().enumerate() {
        if !passes(b) {
            return i;
        }
    }
    s.len()
}

// "Space, tab, LF, CR separate"
fn is_space(b: u8) -> bool
    ensures { result ≡ space b }
{
    (b == b' ') | (b == b'\t') | (b == b'\n') | (b == b'\r')
}

// "a letter or `_`"
fn is_letter(b: u8) -> bool
    ensures { result ≡ letter b }
{
    b.is_ascii_alphabetic() | (b == b'_')
}

// A byte of `0` to `9`.
fn is_digit(b: u8) -> bool
    ensures { result ≡ digit b }
{
    b.is_ascii_digit()
}
