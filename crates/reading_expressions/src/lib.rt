// Reads expressions: tokens in a lent buffer to words in a lent tree.
// No struct of the tokens and the tree, which most functions are lent: of one that holds a `&mut`, each would have to say besides that it
// still holds the same words, and as many (docs/DESIGN-PASS.md).
#![tactic(auto)]

ghost use Rattle.std.specs.Prelude.{◌≡◌, ◌+◌, ◌*◌, ◌≤◌, true, false, length};
ghost use Rattle.std.specs.declared.result.Result.TheVariants.{Err};
ghost use Rattle.meaning.specs.Tokens.{the};
ghost use Rattle.layout.specs.Tokens.{token_words, kind_at, place_at};
ghost use Rattle.layout.specs.Words.{unit_words, unit};
ghost use Rattle.reading_expressions.specs.Contract.{ReadyToRead, Appends, Expects, PutsNode, Level, operands_level, signs_at};
ghost use Rattle.reading_expressions.specs.Contract.{ReadsExpression, ReadsLevel, ReadsOperand, ReadsParenthesised};

use layout::{Reached, Refused, Stage, UNIT, put_unit, tag, token};
use meaning::Refusal;

// The levels of binary operators, loosest first; behind them the level of operands, and that of a token that is no binary operator.
// No enum: levels are counted, and the next tighter one is one more; `Level` and `ReadsLevel` speak of their numbers.
const LEVEL_OR: u32 = 0;

const LEVEL_XOR: u32 = 1;

const LEVEL_AND: u32 = 2;

const LEVEL_EQUALITY: u32 = 3;

const LEVEL_ORDER: u32 = 4;

const LEVEL_SUM: u32 = 5;

const LEVEL_PRODUCT: u32 = 6;

const LEVEL_OPERAND: u32 = 7;

const LEVEL_NONE: u32 = 8;

// The level of an expression.
const LOOSEST: u32 = LEVEL_OR;

// A refusal at the token `at`.
pub fn refuse(refusal: Refusal, tokens: &[u32], at: usize) -> Stage
    requires { at * token_words + token_words ≤ length tokens.now }
    ensures { result ≡ Err (record { refusal = refusal; place = place_at tokens.now at }) }
{
    Err(Refused {
        refusal,
        place: token::place(tokens, at) as usize,
    })
}

// Goes past the token `at`, which has to be of this kind.
pub fn expect(kind: u32, tokens: &[u32], at: usize, size: usize) -> Stage
    requires { at * token_words + token_words ≤ length tokens.now }
    ensures { Expects kind tokens.now at size result }
{
    let next = at + 1;
    if token::kind(tokens, at) != kind {
        return refuse(Refusal::NotAllowed, tokens, at);
    }
    Ok(Reached { count: next, size })
}

// Appends a unit to a tree of `size` words; reading goes on at `next`.
pub fn node(tree: &mut [u32], size: usize, tag: u32, a: u32, b: u32, next: usize) -> Stage
    requires { size + unit_words ≤ length tree.old }
    ensures { PutsNode tag a b next tree.old size tree.new result }
{
    put_unit(tree, size, tag, a, b);
    Ok(Reached {
        count: next,
        size: size + UNIT,
    })
}

// Appends the unit of the operator at `at`, which has this tag, and answers the size.
fn put_operator(tag: u32, tokens: &[u32], at: usize, tree: &mut [u32], size: usize) -> usize
    requires { (at * token_words + token_words ≤ length tokens.now) × (size + unit_words ≤ length tree.old) }
    ensures { (result ≡ size + unit_words) × Appends tree.old size tree.new result (unit tag (place_at tokens.now at) 0) }
{
    put_unit(tree, size, tag, token::place(tokens, at), 0);
    size + UNIT
}

// The level of a binary operator of this kind, loosest first.
// No list that is searched: the `match` is the table itself.
#[tactic(auto, using(crate::proofs::Laws::level_by, std::proofs::lemmas::Grind::common_steps))]
fn level_of(kind: u32) -> u32
    ensures { Level kind result }
{
    match kind {
        token::OR => LEVEL_OR,
        token::XOR => LEVEL_XOR,
        token::AND => LEVEL_AND,
        token::EQUAL | token::UNEQUAL => LEVEL_EQUALITY,
        token::BELOW | token::ABOVE | token::AT_MOST | token::AT_LEAST => LEVEL_ORDER,
        token::PLUS | token::MINUS => LEVEL_SUM,
        token::TIMES => LEVEL_PRODUCT,
        _ => LEVEL_NONE,
    }
}

// Is a token of this kind a unary operator?
#[tactic(auto, using(crate::proofs::Laws::signs_is))]
fn signs(kind: u32) -> bool
    ensures { result ≡ signs_at kind }
{
    matches!(kind, token::MINUS | token::INVERSE | token::NOT)
}

// Reads an operand of one token, which opens no level. The tag of a number or of a float's constant is its token's kind.
fn leaf(tokens: &[u32], at: usize, tree: &mut [u32], size: usize) -> Stage
    requires ready_to_read { ReadyToRead tokens.now at tree.old size }
    requires at_value { (signs_at (kind_at tokens.now at) ≡ false) × (kind_at tokens.now at ≡ the "(" → ⊥) }
    ensures { ReadsOperand 0 tokens.now at tree.old size tree.new result }
{
    let kind = token::kind(tokens, at);
    match kind {
        token::NUMBER | token::FLOAT_NUMBER => {
            node(tree, size, kind, token::value(tokens, at), 0, at + 1)
        }
        token::TRUE => node(tree, size, tag::TRUE, 0, 0, at + 1),
        token::FALSE => node(tree, size, tag::FALSE, 0, 0, at + 1),
        token::NAME => node(
            tree,
            size,
            tag::NAME,
            token::place(tokens, at),
            token::value(tokens, at),
            at + 1,
        ),
        token::CURRENT_MASK => node(tree, size, tag::CURRENT_MASK, 0, 0, at + 1),
        _ => refuse(Refusal::NotAllowed, tokens, at),
    }
}

// Reads an operand, where `room` more levels of nesting may open.
#[cycle(nested_operands)]
fn operand(tokens: &[u32], at: usize, room: u32, tree: &mut [u32], size: usize) -> Stage
    requires { ReadyToRead tokens.now at tree.old size }
    ensures { ReadsOperand room tokens.now at tree.old size tree.new result }
{
    let kind = token::kind(tokens, at);
    if signs(kind) {
        return unary(tokens, at, room, tree, size);
    }
    if kind == token::OPEN {
        return parenthesised(tokens, at, room, tree, size);
    }
    leaf(tokens, at, tree, size)
}

// Reads a unary operator, which opens a level, and its operand.
#[cycle(nested_operands)]
fn unary(tokens: &[u32], at: usize, room: u32, tree: &mut [u32], size: usize) -> Stage
    requires ready_to_read { ReadyToRead tokens.now at tree.old size }
    requires at_value { signs_at (kind_at tokens.now at) ≡ true }
    ensures { ReadsOperand room tokens.now at tree.old size tree.new result }
{
    if room == 0 {
        return refuse(Refusal::TooDeep, tokens, at);
    }
    let sign = tag::UNARY + token::kind(tokens, at);
    let inner = operand(tokens, at + 1, room - 1, tree, size)?;
    let grown = put_operator(sign, tokens, at, tree, inner.size);
    Ok(Reached {
        count: inner.count,
        size: grown,
    })
}

// Reads an expression and the `)` after it; the token at `at` is its `(`, which opens a level.
#[cycle(nested_operands)]
pub fn parenthesised(tokens: &[u32], at: usize, room: u32, tree: &mut [u32], size: usize) -> Stage
    requires { ReadyToRead tokens.now (at + 1) tree.old size }
    ensures { ReadsParenthesised room tokens.now at tree.old size tree.new result }
{
    if room == 0 {
        return refuse(Refusal::TooDeep, tokens, at);
    }
    let inner = binary(LOOSEST, tokens, at + 1, room - 1, tree, size)?;
    expect(token::CLOSE, tokens, inner.count, inner.size)
}

// Reads operands joined by operators of the level or of tighter ones. What is read so far is a part of what the level `last` reads,
// so an operator of that level or of a looser one goes on with it, and any other token ends it.
#[cycle(nested_operands)]
fn binary(level: u32, tokens: &[u32], at: usize, room: u32, tree: &mut [u32], size: usize) -> Stage
    requires ready_to_read { ReadyToRead tokens.now at tree.old size }
    requires level_le_operands_level { level ≤ operands_level }
    ensures { ReadsLevel level room tokens.now at tree.old size tree.new result }
{
    let mut left = operand(tokens, at, room, tree, size)?;
    let mut last = LEVEL_OPERAND;
    // No `for`: where the next operator stands is known when the operand before it is read.
    loop {
        let kind = token::kind(tokens, left.count);
        let next = level_of(kind);
        if next < level || last < next {
            return Ok(left);
        }
        let right = binary(next + 1, tokens, left.count + 1, room, tree, left.size)?;
        left = Reached {
            count: right.count,
            size: put_operator(kind, tokens, left.count, tree, right.size),
        };
        last = next;
    }
}

// Reads an expression.
pub fn expression(tokens: &[u32], at: usize, room: u32, tree: &mut [u32], size: usize) -> Stage
    requires { ReadyToRead tokens.now at tree.old size }
    ensures { ReadsExpression room tokens.now at tree.old size tree.new result }
{
    binary(LOOSEST, tokens, at, room, tree, size)
}
