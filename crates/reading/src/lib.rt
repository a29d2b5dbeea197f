// Reads a text's tokens in a lent buffer to its tree in a lent buffer: refusals 3 and 4.
// No struct of the tokens and the tree, as in `reading_expressions`.
#![tactic(auto)]

ghost use Rattle.std.specs.Prelude.{◌≡◌, ◌+◌, ◌≤◌, ◌<◌, length};
ghost use Rattle.std.specs.declared.result.Result.TheVariants.{Ok};
ghost use Rattle.meaning.specs.Codes.{◌among◌};
ghost use Rattle.meaning.specs.Tokens.{the};
ghost use Rattle.meaning.specs.Reading.{begins};
ghost use Rattle.layout.specs.Tokens.{kind_at};
ghost use Rattle.layout.specs.Heads.{short_head, long_head};
ghost use Rattle.layout.specs.Sizes.{tree_limit};
ghost use Rattle.reading_expressions.specs.Contract.{ReadyToRead, EndsAText, token_count};
ghost use Rattle.reading.specs.Contract.{BeginsDeclaration, Blocked, LentToRead, with_head, with_long_head};
ghost use Rattle.reading.specs.Contract.{ReadsBlock, ReadsCondition, ReadsInitial, ReadsOpening, ReadsOtherwise, ReadsStatement, ReadsStatements, ReadsText, ReadsValue};

use layout::{Reached, Stage, UNIT, head, limit, put_unit, tag, token};
use meaning::Refusal;
use reading_expressions::{expect, expression, node, parenthesised, refuse};

// The levels of nesting that may open.
const NESTING: u32 = limit::NESTING as u32;

// How many tokens the N of `block[N]` stands behind `block`.
const LENGTH: usize = 2;

// Writes the first unit of a statement's head; what else it has stands behind, up to word `end`. Reading goes on at `next`.
fn put_head(tree: &mut [u32], size: usize, tag: u32, place: u32, end: usize, next: usize) -> Stage
    requires { (size + short_head ≤ end) × (end ≤ length tree.old) × (end ≤ size + tree_limit) }
    ensures { (result ≡ Ok (record { count = next; size = end })) × (tree.new ≡ with_head tag place size end tree.old) }
{
    put_unit(tree, size, tag, place, (end - (size + head::SHORT)) as u32);
    Ok(Reached {
        count: next,
        size: end,
    })
}

// The same of a head of two units, which has the words of two parts: one ends at word `first`, the other at `second`.
fn put_long_head(
    tree: &mut [u32],
    size: usize,
    tag: u32,
    place: u32,
    first: usize,
    second: usize,
    end: usize,
    next: usize,
) -> Stage
    requires { (size + long_head ≤ first) × (first ≤ second) × (second ≤ end) × (end ≤ length tree.old) × (end ≤ size + tree_limit) }
    ensures { (result ≡ Ok (record { count = next; size = end })) × (tree.new ≡ with_long_head tag place size first second end tree.old) }
{
    let words = first - (size + head::LONG);
    put_unit(tree, size + UNIT, words as u32, (second - first) as u32, 0);
    put_head(tree, size, tag, place, end, next)
}

// May a token of this kind begin a statement?
#[tactic(auto, using(crate::proofs::Laws::begins_are))]
fn may_begin(kind: u32) -> bool
    ensures { result ≡ (kind among begins) }
{
    matches!(
        kind,
        token::SEMICOLON
            | token::OPEN_BRACE
            | token::INT
            | token::BOOL
            | token::FLOAT
            | token::NAME
            | token::IF
            | token::WHILE
            | token::SCALAR
    )
}

// Reads `=`, an expression and `;`, and writes a unit with `end` and the place of the `=` before the value.
fn value(tokens: &[u32], at: usize, end: u32, room: u32, tree: &mut [u32], size: usize) -> Stage
    requires { ReadyToRead tokens.now at tree.old size }
    ensures { ReadsValue end room tokens.now at tree.old size tree.new result }
{
    let place = token::place(tokens, at);
    let sign = expect(token::BECOMES, tokens, at, size)?;
    let right = expression(tokens, sign.count, room, tree, size + UNIT)?;
    let close = expect(token::SEMICOLON, tokens, right.count, right.size)?;
    put_unit(tree, size, end, place, 0);
    Ok(close)
}

// Reads what follows a declared name, `;` or a value, and writes it as `value` does.
fn initial(tokens: &[u32], at: usize, end: u32, room: u32, tree: &mut [u32], size: usize) -> Stage
    requires { ReadyToRead tokens.now at tree.old size }
    ensures { ReadsInitial end room tokens.now at tree.old size tree.new result }
{
    if token::kind(tokens, at) == token::SEMICOLON {
        return node(tree, size, end, 0, 0, at + 1);
    }
    value(tokens, at, end, room, tree, size)
}

// Reads an assignment.
fn assignment(tokens: &[u32], at: usize, room: u32, tree: &mut [u32], size: usize) -> Stage
    requires ready_to_read { ReadyToRead tokens.now at tree.old size }
    requires at_value { kind_at tokens.now at ≡ the "name" }
    ensures { ReadsStatement room tokens.now at tree.old size tree.new result }
{
    let place = token::place(tokens, at);
    let end = token::value(tokens, at);
    let right = value(tokens, at + 1, end, room, tree, size + head::SHORT)?;
    put_head(tree, size, tag::ASSIGNMENT, place, right.size, right.count)
}

// Reads a declaration from its name on; the type before it has N `length` at `place`.
fn declared(
    tokens: &[u32],
    at: usize,
    name: usize,
    length: u32,
    place: u32,
    room: u32,
    tree: &mut [u32],
    size: usize,
) -> Stage
    requires ready_to_read { ReadyToRead tokens.now at tree.old size }
    requires begins_declaration { BeginsDeclaration (kind_at tokens.now at) }
    requires blocked { Blocked tokens.now (at + 1) name length place }
    ensures { ReadsStatement room tokens.now at tree.old size tree.new result }
{
    let kind = token::kind(tokens, at);
    let begin = token::place(tokens, at);
    let named = expect(token::NAME, tokens, name, size)?;
    let spelled = token::place(tokens, name);
    let end = token::value(tokens, name);
    let rest = initial(tokens, named.count, end, room, tree, size + head::LONG)?;
    put_unit(tree, size + head::SHORT, length, place, spelled);
    put_head(tree, size, kind, begin, rest.size, rest.count)
}

// Reads `[`, N and `]` behind the `block` at `at`.
fn block(tokens: &[u32], at: usize, size: usize) -> Stage
    requires { EndsAText tokens.now × (at < token_count tokens.now) × (kind_at tokens.now at ≡ the "block") }
    ensures { ReadsBlock tokens.now at result }
{
    let bracket = expect(token::OPEN_BRACKET, tokens, at + 1, size)?;
    let number = expect(token::NUMBER, tokens, bracket.count, size)?;
    expect(token::CLOSE_BRACKET, tokens, number.count, size)
}

// Reads a declaration.
fn declaration(tokens: &[u32], at: usize, room: u32, tree: &mut [u32], size: usize) -> Stage
    requires ready_to_read { ReadyToRead tokens.now at tree.old size }
    requires begins_declaration { BeginsDeclaration (kind_at tokens.now at) }
    ensures { ReadsStatement room tokens.now at tree.old size tree.new result }
{
    let behind = at + 1;
    if token::kind(tokens, behind) != token::BLOCK {
        return declared(tokens, at, behind, 0, 0, room, tree, size);
    }
    let read = block(tokens, behind, size)?;
    let length = token::value(tokens, behind + LENGTH);
    let place = token::place(tokens, behind + LENGTH);
    declared(tokens, at, read.count, length, place, room, tree, size)
}

// Reads a condition, behind a unit left free at `size`.
fn condition(tokens: &[u32], at: usize, room: u32, tree: &mut [u32], size: usize) -> Stage
    requires { ReadyToRead tokens.now at tree.old size }
    ensures { ReadsCondition room tokens.now at tree.old size tree.new result }
{
    expect(token::OPEN, tokens, at, size)?;
    parenthesised(tokens, at, room, tree, size + UNIT)
}

// Reads a branch or a body, which opens a level at its first token.
#[cycle(nested_statements)]
fn opening(tokens: &[u32], at: usize, room: u32, tree: &mut [u32], size: usize) -> Stage
    requires { ReadyToRead tokens.now at tree.old size }
    ensures { ReadsOpening room tokens.now at tree.old size tree.new result }
{
    if !may_begin(token::kind(tokens, at)) {
        return refuse(Refusal::NotAllowed, tokens, at);
    }
    if room == 0 {
        return refuse(Refusal::TooDeep, tokens, at);
    }
    statement(tokens, at, room - 1, tree, size)
}

// Reads `else` and the branch after it.
#[cycle(nested_statements)]
fn otherwise(tokens: &[u32], at: usize, room: u32, tree: &mut [u32], size: usize) -> Stage
    requires { ReadyToRead tokens.now at tree.old size }
    ensures { ReadsOtherwise room tokens.now at tree.old size tree.new result }
{
    let word = expect(token::ELSE, tokens, at, size);
    let Ok(next) = word else {
        // No `?`: must-fail/else-optional returns another answer here.
        return word;
    };
    opening(tokens, next.count, room, tree, size)
}

// Reads an `if`.
#[cycle(nested_statements)]
fn if_else(tokens: &[u32], at: usize, room: u32, tree: &mut [u32], size: usize) -> Stage
    requires ready_to_read { ReadyToRead tokens.now at tree.old size }
    requires at_value { kind_at tokens.now at ≡ the "if" }
    ensures { ReadsStatement room tokens.now at tree.old size tree.new result }
{
    let place = token::place(tokens, at);
    let test = condition(tokens, at + 1, room, tree, size + head::SHORT)?;
    let first = opening(tokens, test.count, room, tree, test.size)?;
    let second = otherwise(tokens, first.count, room, tree, first.size)?;
    put_long_head(
        tree,
        size,
        tag::IF,
        place,
        test.size,
        first.size,
        second.size,
        second.count,
    )
}

// Reads a `while`.
#[cycle(nested_statements)]
fn while_loop(tokens: &[u32], at: usize, room: u32, tree: &mut [u32], size: usize) -> Stage
    requires ready_to_read { ReadyToRead tokens.now at tree.old size }
    requires at_value { kind_at tokens.now at ≡ the "while" }
    ensures { ReadsStatement room tokens.now at tree.old size tree.new result }
{
    let place = token::place(tokens, at);
    let test = condition(tokens, at + 1, room, tree, size + head::SHORT)?;
    let body = opening(tokens, test.count, room, tree, test.size)?;
    put_long_head(
        tree,
        size,
        tag::WHILE,
        place,
        test.size,
        test.size,
        body.size,
        body.count,
    )
}

// Reads a `scalar`.
#[cycle(nested_statements)]
fn scalar(tokens: &[u32], at: usize, room: u32, tree: &mut [u32], size: usize) -> Stage
    requires ready_to_read { ReadyToRead tokens.now at tree.old size }
    requires at_value { kind_at tokens.now at ≡ the "scalar" }
    ensures { ReadsStatement room tokens.now at tree.old size tree.new result }
{
    let place = token::place(tokens, at);
    let body = opening(tokens, at + 1, room, tree, size + head::SHORT)?;
    put_head(tree, size, tag::SCALAR, place, body.size, body.count)
}

// Reads statements up to a token of the kind `close`.
#[cycle(nested_statements)]
fn statements(
    close: u32,
    tokens: &[u32],
    at: usize,
    room: u32,
    tree: &mut [u32],
    size: usize,
) -> Stage
    requires { ReadyToRead tokens.now at tree.old size }
    ensures { ReadsStatements close room tokens.now at tree.old size tree.new result }
{
    let mut reached = Reached { count: at, size };
    // No `for`: where the next statement stands is known when the one before it is read.
    while token::kind(tokens, reached.count) != close {
        reached = statement(tokens, reached.count, room, tree, reached.size)?;
    }
    Ok(reached)
}

// Reads a sequence in braces.
#[cycle(nested_statements)]
fn braces(tokens: &[u32], at: usize, room: u32, tree: &mut [u32], size: usize) -> Stage
    requires ready_to_read { ReadyToRead tokens.now at tree.old size }
    requires at_value { kind_at tokens.now at ≡ the "{" }
    ensures { ReadsStatement room tokens.now at tree.old size tree.new result }
{
    if room == 0 {
        return refuse(Refusal::TooDeep, tokens, at);
    }
    let place = token::place(tokens, at);
    let inside = statements(
        token::CLOSE_BRACE,
        tokens,
        at + 1,
        room - 1,
        tree,
        size + head::SHORT,
    )?;
    let close = expect(token::CLOSE_BRACE, tokens, inside.count, inside.size)?;
    put_head(tree, size, tag::BRACES, place, inside.size, close.count)
}

// Reads a statement, where `room` more levels of nesting may open.
// No table of functions: each is handed other parts of what is lent.
#[cycle(nested_statements)]
fn statement(tokens: &[u32], at: usize, room: u32, tree: &mut [u32], size: usize) -> Stage
    requires { ReadyToRead tokens.now at tree.old size }
    ensures { ReadsStatement room tokens.now at tree.old size tree.new result }
{
    let kind = token::kind(tokens, at);
    match kind {
        token::SEMICOLON => node(tree, size, tag::EMPTY, token::place(tokens, at), 0, at + 1),
        token::OPEN_BRACE => braces(tokens, at, room, tree, size),
        token::INT | token::BOOL | token::FLOAT => declaration(tokens, at, room, tree, size),
        token::NAME => assignment(tokens, at, room, tree, size),
        token::IF => if_else(tokens, at, room, tree, size),
        token::WHILE => while_loop(tokens, at, room, tree, size),
        token::SCALAR => scalar(tokens, at, room, tree, size),
        _ => refuse(Refusal::NotAllowed, tokens, at),
    }
}

// Reads a whole text.
pub fn read(tokens: &[u32], tree: &mut [u32]) -> Stage
    requires { LentToRead tokens.now tree.old }
    ensures { ReadsText tokens.now tree.new result }
{
    let all = statements(token::END, tokens, 0, NESTING, tree, 0)?;
    expect(token::END, tokens, all.count, all.size)
}
