// The tags of trees and programs: the numbers of tokens, so that there is no second table.
// No enum: a tag is a word of a lent buffer, and meaning's Tokens numbers it.
ghost use Rattle.std.specs.Prelude.{◌≡◌};
ghost use Rattle.layout.specs.Words.{sign_of, operator_of};

use crate::token;
use meaning::{Binary, Unary};

// Nodes of an expression that are no operators.
pub const NUMBER: u32 = token::NUMBER;

pub const FLOAT_NUMBER: u32 = token::FLOAT_NUMBER;

pub const NAME: u32 = token::NAME;

pub const TRUE: u32 = token::TRUE;

pub const FALSE: u32 = token::FALSE;

pub const CURRENT_MASK: u32 = token::CURRENT_MASK;

// The tag of a binary operator is its sign's, so that the first sign's is the least of them; of a unary one its sign's and this more,
// since `-` is both.
pub const BINARY: u32 = token::EQUAL;

pub const UNARY: u32 = 128;

// Statements of a tree: `;`, braces, an assignment (its name's), `if`, `while`, `scalar`; and a declaration, by its kind.
pub const EMPTY: u32 = token::SEMICOLON;

pub const BRACES: u32 = token::OPEN_BRACE;

pub const ASSIGNMENT: u32 = token::NAME;

pub const IF: u32 = token::IF;

pub const WHILE: u32 = token::WHILE;

pub const SCALAR: u32 = token::SCALAR;

pub const INT: u32 = token::INT;

pub const BOOL: u32 = token::BOOL;

pub const FLOAT: u32 = token::FLOAT;

// Statements of a program that a tree does not have: a step, and a value that is put into a variable.
pub const STEP: u32 = token::SEMICOLON;

pub const PUT: u32 = token::BECOMES;

// The unary operator of a tag.
// No `From<u32>`: only a tag stands for an operator, and what another number gives is the layout's choice (`sign_of`), not the operator's.
pub fn unary_of(tag: u32) -> Unary
    ensures { result ≡ sign_of tag }
{
    match tag {
        NEG => Unary::Neg,
        INV => Unary::Inv,
        _ => Unary::Not,
    }
}

const NEG: u32 = UNARY + token::MINUS;

const INV: u32 = UNARY + token::INVERSE;

// The binary operator of a tag.
// No `From<u32>`, as above (`operator_of`).
pub fn binary_of(tag: u32) -> Binary
    ensures { result ≡ operator_of tag }
{
    match tag {
        token::OR => Binary::Or,
        token::XOR => Binary::Xor,
        token::AND => Binary::And,
        token::EQUAL => Binary::Eq,
        token::UNEQUAL => Binary::Ne,
        token::BELOW => Binary::Lt,
        token::ABOVE => Binary::Gt,
        token::AT_MOST => Binary::Le,
        token::AT_LEAST => Binary::Ge,
        token::PLUS => Binary::Add,
        token::MINUS => Binary::Sub,
        _ => Binary::Mul,
    }
}
