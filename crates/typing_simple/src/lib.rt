// The simple statements, which hold no other: each is typed, its declaration put in the table and its program written.
// No struct of the table, the code and the stack, as in `typing_expressions`.
#![tactic(auto)]

ghost use Rattle.std.specs.Prelude.{◌≡◌, ◌++◌, ◌+◌, ◌≤◌, length, take, IfOk};
ghost use Rattle.meaning.specs.Program.{step};
ghost use Rattle.layout.specs.Words.{unit, unit_words, headed};
ghost use Rattle.layout.specs.Code.{program_words};
ghost use Rattle.layout.specs.Heads.{long_head};
ghost use Rattle.layout.specs.Sizes.{tree_limit};
ghost use Rattle.typing_expressions.specs.Answers.{ThereIs, Expression, TypingRoom, TypesExpression};
ghost use Rattle.typing_simple.specs.Shapes.{part, Empty, Declaration, PlainDeclaration, InitialDeclaration, Assignment, Condition};
ghost use Rattle.typing_simple.specs.Answers.{length_or, valued, NamesKind, BlocksWell, TypesCondition, PlainRoom, TypesEmpty, ScopeOpen, ScopeClosed, TypesStatement};

use layout::{Reached, Refused, Stage, UNIT, head, put_unit, slot, tag, word};
use meaning::{Kind, Refusal};
use typing_expressions::{Point, declare, expression, named};

// What an `=` writes to: the place of the `=`, a kind, and a length, or 0 for any.
// No Option: the length is a word of the tree, which is 0 where none is declared, or a word of the stack.
#[derive(Clone, Copy)]
struct Target {
    place: usize,
    kind: Kind,
    lanes: u32,
}

// Writes the one unit of a step behind the first `size` words.
fn put_step(code: &mut [u32], size: usize, place: u32)
    requires { size + unit_words ≤ length code.old }
    ensures { take (size + unit_words) code.new ≡ take size code.old ++ program_words (step place) }
{
    put_unit(code, size, tag::STEP, place, 0);
}

// Writes a long head in front of its parts, which end at `end`.
pub fn put_head(code: &mut [u32], size: usize, tag: u32, place: u32, a: u32, b: u32, end: usize)
    requires { (size + long_head ≤ end) × (end ≤ length code.old) × (end ≤ tree_limit) }
    ensures { take end code.new ≡ take size code.old ++ headed tag place (unit a b 0) (part code.old (size + long_head) end) }
{
    put_unit(code, size, tag, place, (end - size - UNIT) as u32);
    put_unit(code, size + UNIT, a, b, 0);
}

// The declared length, or that of the value where none is declared.
// No Option: the declared length is a word of the tree, which is 0 where there is none.
#[tactic(auto, unfolding(crate::specs::Answers::length_or))]
fn length_or(m: u32, n: u32) -> u32
    ensures { result ≡ length_or m n }
{
    if m == 0 { n } else { m }
}

// Types the right side of an `=`: its expression, then 8, 9, 10. The target's kind and the length stand in slot 0.
#[tactic(auto, using(typing_expressions::proofs::Walk::limit))]
fn value(
    text: &[u8],
    tree: &[u32],
    table: &[u32],
    at: Point,
    target: Target,
    code: &mut [u32],
    stack: &mut [u32],
) -> Stage
    requires typing_room { TypingRoom text.now tree.now table.now code.old stack.old at }
    requires there_is { ThereIs (Expression text.now tree.now) }
    ensures { TypesExpression (valued at.context target) at text.now tree.now table.now code.old code.new stack.new result }
{
    let right = expression(text, tree, table, at, code, stack)?;
    let kind = target.kind;
    let place = target.place;
    let n = slot::lanes(stack, 0);
    let length = length_or(target.lanes, n);
    if slot::kind(stack, 0) != kind {
        return Err(Refused {
            refusal: Refusal::WrongKind,
            place,
        });
    }
    if n != 1 && n != length {
        return Err(Refused {
            refusal: Refusal::WrongLength,
            place,
        });
    }
    if at.context != 1 && length == 1 {
        return Err(Refused {
            refusal: Refusal::LengthOneTarget,
            place,
        });
    }
    let word = slot::word(stack, 0);
    slot::put(stack, 0, kind, length, word);
    Ok(right)
}

// Types the condition of an `if` or a `while`: its expression, then 8. Its kind and its length stand in slot 0.
#[tactic(auto, using(typing_expressions::proofs::Walk::limit))]
pub fn condition(
    text: &[u8],
    tree: &[u32],
    table: &[u32],
    at: Point,
    code: &mut [u32],
    stack: &mut [u32],
) -> Stage
    requires typing_room { TypingRoom text.now tree.now table.now code.old stack.old at }
    requires there_is { ThereIs (Condition text.now tree.now) }
    ensures { TypesCondition at text.now tree.now table.now code.old code.new stack.new result }
{
    let end = head::LONG + word(tree, head::CONDITION);
    let inside = Point {
        size: at.size + head::LONG,
        ..at
    };
    let words = &tree[head::LONG..end];
    let test = expression(text, words, table, inside, code, stack)?;
    if slot::kind(stack, 0) != Kind::Bool {
        return Err(Refused {
            refusal: Refusal::WrongKind,
            place: word(tree, head::PLACE),
        });
    }
    Ok(test)
}

// Types an assignment: 5, 9 at the target, the right side, then 8, 9, 10 at `=`.
#[tactic(auto, using(typing_expressions::proofs::Walk::limit))]
pub fn assignment(
    text: &[u8],
    tree: &[u32],
    table: &[u32],
    at: Point,
    code: &mut [u32],
    stack: &mut [u32],
) -> Stage
    requires typing_room { TypingRoom text.now tree.now table.now code.old stack.old at }
    requires there_is { ThereIs (Assignment text.now tree.now) }
    ensures { TypesStatement Assignment at text.now tree.now table.now table.now code.old code.new result }
{
    let size = at.size;
    let place = word(tree, head::PLACE);
    let end = word(tree, head::TARGET_END);
    named(text, table, at, place, end, stack, 0)?;
    let number = slot::word(stack, 0);
    let target = Target {
        place: word(tree, head::EQUALS),
        kind: slot::kind(stack, 0),
        lanes: slot::lanes(stack, 0),
    };
    let inside = Point {
        size: size + head::LONG,
        ..at
    };
    let words = &tree[head::LONG..];
    let right = value(text, words, table, inside, target, code, stack)?;
    put_head(
        code,
        size,
        tag::PUT,
        tree[head::PLACE],
        number,
        0,
        right.size,
    );
    Ok(right)
}

// The kind that the first token of a declaration names.
// No `From<u32>`: only a declaration's tag names a kind (`NamesKind`).
fn kind_named(tag: u32) -> Kind
    ensures { NamesKind tag result }
{
    match tag {
        tag::INT => Kind::Int,
        tag::BOOL => Kind::Bool,
        _ => Kind::Float,
    }
}

// There is no `block[N]`, or its N is one of the list.
fn good_block(n: u32, place: usize) -> bool
    ensures { BlocksWell n place result }
{
    place == 0 || typing_expressions::listed(n)
}

// Types a declaration without value, whose N is good: 9, 6, 11 at the name.
fn plain(
    text: &[u8],
    tree: &[u32],
    table: &mut [u32],
    at: Point,
    kind: Kind,
    code: &mut [u32],
) -> Stage
    requires plain_room { PlainRoom text.now tree.now table.old code.old at }
    requires there_is { ThereIs (PlainDeclaration kind text.now tree.now) }
    ensures { TypesStatement (PlainDeclaration kind) at text.now tree.now table.old table.new code.old code.new result }
{
    let size = at.size;
    let lanes = length_or(tree[head::LENGTH], 1);
    let place = word(tree, head::NAME);
    let end = word(tree, head::NAME_END);
    let new = declare(text, table, at, kind, lanes, place, end)?;
    put_step(code, size, tree[head::PLACE]);
    Ok(Reached {
        size: size + UNIT,
        ..new
    })
}

// Types a declaration with value, whose N is good: the value, 8, 9, 10 at `=`, then 9, 6, 11 at the name.
#[tactic(auto, using(typing_expressions::proofs::Walk::limit))]
fn initial(
    text: &[u8],
    tree: &[u32],
    table: &mut [u32],
    at: Point,
    kind: Kind,
    code: &mut [u32],
    stack: &mut [u32],
) -> Stage
    requires typing_room { TypingRoom text.now tree.now table.old code.old stack.old at }
    requires there_is { ThereIs (InitialDeclaration kind text.now tree.now) }
    ensures { TypesStatement (InitialDeclaration kind) at text.now tree.now table.old table.new code.old code.new result }
{
    let size = at.size;
    let target = Target {
        place: word(tree, head::VALUE),
        kind,
        lanes: tree[head::LENGTH],
    };
    let inside = Point {
        size: size + head::LONG,
        ..at
    };
    let words = &tree[head::DECLARATION..];
    let right = value(text, words, table, inside, target, code, stack)?;
    let length = slot::lanes(stack, 0);
    let place = word(tree, head::NAME);
    let end = word(tree, head::NAME_END);
    let new = declare(text, table, at, kind, length, place, end)?;
    let number = at.count as u32;
    put_head(
        code,
        size,
        tag::PUT,
        tree[head::PLACE],
        number,
        0,
        right.size,
    );
    Ok(Reached {
        count: new.count,
        ..right
    })
}

// Types a declaration: 7, then the rest.
pub fn declaration(
    text: &[u8],
    tree: &[u32],
    table: &mut [u32],
    at: Point,
    code: &mut [u32],
    stack: &mut [u32],
) -> Stage
    requires typing_room { TypingRoom text.now tree.now table.old code.old stack.old at }
    requires there_is { ThereIs (Declaration text.now tree.now) }
    ensures { TypesStatement Declaration at text.now tree.now table.old table.new code.old code.new result }
{
    let kind = kind_named(tree[head::TAG]);
    let place = word(tree, head::LENGTH_PLACE);
    if !good_block(tree[head::LENGTH], place) {
        return Err(Refused {
            refusal: Refusal::LengthNotListed,
            place,
        });
    }
    if tree[head::VALUE] == 0 {
        return plain(text, tree, table, at, kind, code);
    }
    initial(text, tree, table, at, kind, code, stack)
}

// Types `;`.
pub fn empty(tree: &[u32], at: Point, code: &mut [u32]) -> Stage
    requires { ThereIs (Empty tree.now) × (at.size + unit_words ≤ length code.old) }
    ensures { TypesEmpty at tree.now code.old code.new result }
{
    let size = at.size;
    put_step(code, size, tree[head::PLACE]);
    Ok(Reached {
        count: at.count,
        size: size + UNIT,
    })
}

// Ends the scope of what was declared from a number on.
pub fn scoped(one: Stage, table: &mut [u32], from: usize) -> Stage
    requires { IfOk one (λ reached. ScopeOpen from reached.count table.old) }
    ensures { ScopeClosed from one table.old table.new result }
{
    let reached = one?;
    typing_expressions::close(table, from, reached.count);
    Ok(reached)
}
