// What a sign is, by the list of the signs.
ghost use Rattle.std.specs.Prelude.{◌≡◌, [], ◌∷◌, ℕ};
ghost use Rattle.meaning.specs.Tokens.{signs, sign, marks};
ghost use Rattle.tokens.specs.Lexing.{pair_bytes, rows, sign_kind, lexeme};

use crate::Lexeme;
use layout::token;

// Document 01's signs, "longest first": two bytes for each, the second of which is a space where a sign has one. Their tokens are numbered
// in this order, from `token::EQUAL` on.
const SIGNS: [[u8; PAIR]; 22] = [
    *b"==", *b"!=", *b"<=", *b">=", *b"; ", *b"{ ", *b"} ", *b"( ", *b") ", *b"[ ", *b"] ", *b"= ",
    *b"< ", *b"> ", *b"+ ", *b"- ", *b"* ", *b"& ", *b"| ", *b"^ ", *b"~ ", *b"! ",
];

// The bytes of a sign in the list.
const PAIR: usize = 2;

// The longest sign that starts with b, where c follows: one of two bytes, which all end with `=`, or else the one that b is by itself.
pub fn longest(b: u8, c: u8) -> Option<Lexeme>
    ensures { (at : ℕ) → result ≡ lexeme at (sign marks (b ∷ c ∷ [])) }
{
    if c == b'=' {
        if let Some(long) = kind(&SIGNS, b, b'=') {
            return Some(Lexeme::Token(long, 0, 2));
        }
    }
    let short = kind(&SIGNS, b, b' ')?;
    Some(Lexeme::Token(short, 0, 1))
}

// What the sign is that has these two bytes in the list.
fn kind(list: &[[u8; PAIR]], b: u8, c: u8) -> Option<u32>
    requires { list.now ≡ rows pair_bytes signs }
    ensures { result ≡ sign_kind b c }
{
    for (i, sign) in list.iter().enumerate() {
        if (sign[0] == b) & (sign[1] == c) {
            return Some(token::EQUAL + i as u32);
        }
    }
    None
}
