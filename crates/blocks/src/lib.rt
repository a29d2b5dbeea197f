// Chunks of 16 lanes by value: operators between them, a variable's lanes from and to its bytes, and masks.
#![tactic(auto)]

ghost use Rattle.std.specs.Prelude.{◌≡◌, Bool, ℕ, ◌+◌, ◌*◌, ◌<◌, ◌≤◌, ◌-◌, length, take, drop, replicate};
ghost use mathlib.Core.List.{[], ◌∷◌, map, zip_with, ◌++◌};
ghost use Rattle.meaning.specs.declared.Kind.TheVariants.{Int as int, Bool as bool};
ghost use Rattle.meaning.specs.Memory.{truth, bit as lane_bit, whole, load as loaded, store as stored};
ghost use Rattle.meaning.specs.Running.{word_unary, word_binary, float_unary, float_binary, unary_of, binary_of};
ghost use Rattle.layout.specs.Instructions.{chunk_lanes, mask_bits};
ghost use Rattle.operators.specs.Operators.{int_size, Sum, Order, Join};
ghost use Rattle.blocks.specs.Masks.{ZeroOrOne, bits, number};
ghost use Rattle.blocks.specs.Chunks.{placed, padded, in_chunk, four_ints, held_as, lane_stored};

use floats::chunk;
use meaning::{Binary, Kind, Unary};
use operators::{INT, bit, int_of, put_int};
use std::array;

// The lanes of a chunk.
const CHUNK: usize = layout::instruction::CHUNK;

// The bytes of n lanes of a kind.
// No one function with `typing_expressions::whole`, which counts in 32 bits: each is one product of `Kind::size`.
pub fn whole(kind: Kind, n: usize) -> usize
    requires { n ≤ mask_bits }
    ensures { result ≡ whole kind n }
{
    n * kind.size()
}

// `+`, `-` or `*`, lane by lane.
// No one function over a closure for this and the next two: `from_fn` is one, and each asks for operators of its own group.
fn sums(operator: Binary, x: [u32; 16], y: [u32; 16]) -> [u32; 16]
    requires { Sum operator }
    ensures { result ≡ zip_with (word_binary operator) x y }
{
    array::from_fn(|i| operators::sum(operator, x[i], y[i]))
}

// `<`, `>`, `<=` or `>=`, lane by lane.
fn orders(operator: Binary, x: [u32; 16], y: [u32; 16]) -> [u32; 16]
    requires { Order operator }
    ensures { result ≡ zip_with (word_binary operator) x y }
{
    array::from_fn(|i| operators::order(operator, x[i], y[i]))
}

// `|`, `^`, `&`, `==` or `!=`, lane by lane.
fn joins(operator: Binary, x: [u32; 16], y: [u32; 16]) -> [u32; 16]
    requires { Join operator }
    ensures { result ≡ zip_with (word_binary operator) x y }
{
    array::from_fn(|i| operators::join(operator, x[i], y[i]))
}

// A binary operator between two chunks of words, lane by lane.
fn words(operator: Binary, x: [u32; 16], y: [u32; 16]) -> [u32; 16]
    ensures { result ≡ zip_with (word_binary operator) x y }
{
    // No `|` between the first seven arms: comparisons that share an arm are compiled to more moves and jumps.
    match operator {
        Binary::Add => sums(operator, x, y),
        Binary::Sub => sums(operator, x, y),
        Binary::Mul => sums(operator, x, y),
        Binary::Lt => orders(operator, x, y),
        Binary::Gt => orders(operator, x, y),
        Binary::Le => orders(operator, x, y),
        Binary::Ge => orders(operator, x, y),
        _ => joins(operator, x, y),
    }
}

// The same between two chunks of singles.
fn singles(operator: Binary, x: [u32; 16], y: [u32; 16]) -> [u32; 16]
    ensures { result ≡ zip_with (float_binary operator) x y }
{
    // No `|` between the arms with a loop: each operator has one of its own, so that the loop over its lanes is made for it alone.
    match operator {
        Binary::Or | Binary::Xor | Binary::And => all(0),
        Binary::Add => chunk::sums(operator, x, y),
        Binary::Sub => chunk::sums(operator, x, y),
        Binary::Mul => chunk::sums(operator, x, y),
        Binary::Eq => chunk::orders(operator, x, y),
        Binary::Ne => chunk::orders(operator, x, y),
        Binary::Lt => chunk::orders(operator, x, y),
        Binary::Gt => chunk::orders(operator, x, y),
        Binary::Le => chunk::orders(operator, x, y),
        Binary::Ge => chunk::orders(operator, x, y),
    }
}

// A binary operator between two chunks of a kind, lane by lane.
pub fn operate(kind: Kind, operator: Binary, x: [u32; 16], y: [u32; 16]) -> [u32; 16]
    ensures { result ≡ zip_with (binary_of kind operator) x y }
{
    match kind {
        Kind::Int | Kind::Bool => words(operator, x, y),
        Kind::Float => singles(operator, x, y),
    }
}

// A unary operator of a chunk of words, lane by lane.
fn word_signs(operator: Unary, x: [u32; 16]) -> [u32; 16]
    ensures { result ≡ map (word_unary operator) x }
{
    array::from_fn(|i| operators::sign(operator, x[i]))
}

// The same of a chunk of singles.
fn single_signs(operator: Unary, x: [u32; 16]) -> [u32; 16]
    ensures { result ≡ map (float_unary operator) x }
{
    match operator {
        Unary::Neg => chunk::minuses(x),
        Unary::Inv | Unary::Not => all(0),
    }
}

// A unary operator of a chunk of a kind, lane by lane.
pub fn signs(kind: Kind, operator: Unary, x: [u32; 16]) -> [u32; 16]
    ensures { result ≡ map (unary_of kind operator) x }
{
    match kind {
        Kind::Int | Kind::Bool => word_signs(operator, x),
        Kind::Float => single_signs(operator, x),
    }
}

// One lane in all.
pub fn all(x: u32) -> [u32; 16]
    ensures { result ≡ replicate chunk_lanes x }
{
    [x; 16]
}

// A chunk of ints, or of the patterns of floats, from the bytes at an address.
pub fn ints16(memory: &[u8], at: usize) -> [u32; 16]
    requires { at + whole int chunk_lanes ≤ length memory.now }
    ensures { result ≡ loaded int chunk_lanes (drop at memory.now) }
{
    ints(memory, at, CHUNK)
}

// n ints, or patterns of floats, from the bytes at an address, and zeros.
#[tactic(auto, unfolding(meaning::specs::Memory::whole, meaning::specs::Memory::size))]
fn ints(memory: &[u8], at: usize, n: usize) -> [u32; 16]
    requires { (n ≤ chunk_lanes) × (at + whole int n ≤ length memory.now) }
    ensures { result ≡ padded (loaded int n (drop at memory.now)) }
{
    let mut r = [0u32; 16];
    for i in 0..n {
        let from = at + i * INT;
        r[i] = int_of(&memory[from..from + INT]);
    }
    r
}

// n bools from the bytes at an address, and zeros.
#[tactic(auto, unfolding(meaning::specs::Memory::whole, meaning::specs::Memory::size))]
fn bools(memory: &[u8], at: usize, n: usize) -> [u32; 16]
    requires { (n ≤ chunk_lanes) × (at + whole bool n ≤ length memory.now) }
    ensures { result ≡ padded (loaded bool n (drop at memory.now)) }
{
    let mut r = [0u32; 16];
    for i in 0..n {
        r[i] = bit(memory[at + i] != 0);
    }
    r
}

// The lanes of a variable of a kind and n lanes: where it has one, that one in all.
pub fn load(kind: Kind, memory: &[u8], at: usize, n: usize) -> [u32; 16]
    requires { (n ≤ chunk_lanes) × (at + whole kind n ≤ length memory.now) }
    ensures { result ≡ in_chunk (loaded kind n (drop at memory.now)) }
{
    let lanes = match kind {
        Kind::Int | Kind::Float => ints(memory, at, n),
        Kind::Bool => bools(memory, at, n),
    };
    if n == 1 {
        return all(lanes[0]);
    }
    lanes
}

// A mask as lanes.
pub fn mask_lanes(mask: u64) -> [u32; 16]
    ensures { result ≡ map lane_bit (bits chunk_lanes mask) }
{
    array::from_fn(|i| bit((mask >> i) & 1 == 1))
}

// The lanes of the register at a word.
pub fn get(registers: &[u32], at: usize) -> [u32; 16]
    requires { at + chunk_lanes ≤ length registers.now }
    ensures { result ≡ take chunk_lanes (drop at registers.now) }
{
    array::from_fn(|i| registers[at + i])
}

// Lanes into the register at a word.
pub fn put(registers: &mut [u32], at: usize, x: [u32; 16])
    requires { at + chunk_lanes ≤ length registers.old }
    ensures { registers.new ≡ placed registers.old at chunk_lanes x }
{
    // No `copy_from_slice`: the lanes would go through memory on the way, and here they stay in the machine's registers.
    for i in 0..CHUNK {
        registers[at + i] = x[i];
    }
}

// A lane's four bytes, where it is active.
fn put_if(bytes: &mut [u8], active: bool, x: u32)
    requires { length bytes.old ≡ int_size }
    ensures { bytes.new ≡ stored int (active ∷ []) (x ∷ []) bytes.old }
{
    if active {
        put_int(bytes, x);
    }
}

// Four lanes, each where it is active.
// No loop, here and below: one over four lanes and their bytes is as long as the four lines.
fn some_of_four(bytes: &mut [u8], mask: u64, a: u32, b: u32, c: u32, d: u32)
    requires { length bytes.old ≡ four_ints }
    ensures { bytes.new ≡ stored int (bits 4 mask) (a ∷ b ∷ c ∷ d ∷ []) bytes.old }
{
    put_if(&mut bytes[12..16], (mask >> 3) & 1 == 1, d);
    put_if(&mut bytes[8..12], (mask >> 2) & 1 == 1, c);
    put_if(&mut bytes[4..8], (mask >> 1) & 1 == 1, b);
    put_if(&mut bytes[0..4], mask & 1 == 1, a);
}

// Four lanes that are all active.
fn all_of_four(bytes: &mut [u8], a: u32, b: u32, c: u32, d: u32)
    requires { length bytes.old ≡ four_ints }
    ensures { bytes.new ≡ stored int (bits 4 15) (a ∷ b ∷ c ∷ d ∷ []) bytes.old }
{
    put_if(&mut bytes[0..4], true, a);
    put_if(&mut bytes[4..8], true, b);
    put_if(&mut bytes[8..12], true, c);
    put_if(&mut bytes[12..16], true, d);
}

// The active ones of four lanes, by the low four bits of a mask: the other bytes are not written.
fn four(bytes: &mut [u8], mask: u64, a: u32, b: u32, c: u32, d: u32)
    requires { length bytes.old ≡ four_ints }
    ensures { bytes.new ≡ stored int (bits 4 mask) (a ∷ b ∷ c ∷ d ∷ []) bytes.old }
{
    let active = mask & 15;
    if active == 15 {
        all_of_four(bytes, a, b, c, d);
    } else if active != 0 {
        some_of_four(bytes, mask, a, b, c, d);
    }
}

// The active ones of a chunk of lanes go into the bytes of an int variable of so many.
fn store16(bytes: &mut [u8], mask: u64, x: [u32; 16])
    requires { length bytes.old ≡ whole int chunk_lanes }
    ensures { bytes.new ≡ stored int (bits chunk_lanes mask) x bytes.old }
{
    four(&mut bytes[48..64], mask >> 12, x[12], x[13], x[14], x[15]);
    four(&mut bytes[32..48], mask >> 8, x[8], x[9], x[10], x[11]);
    four(&mut bytes[16..32], mask >> 4, x[4], x[5], x[6], x[7]);
    four(&mut bytes[0..16], mask, x[0], x[1], x[2], x[3]);
}

// The active ones of n lanes go into the bytes of an int variable.
fn store_ints(bytes: &mut [u8], mask: u64, x: [u32; 16], n: usize)
    requires { (n ≤ chunk_lanes) × (length bytes.old ≡ whole int n) }
    ensures { bytes.new ≡ stored int (bits n mask) x bytes.old }
{
    for i in 0..n {
        let from = i * INT;
        put_if(&mut bytes[from..from + INT], (mask >> i) & 1 == 1, x[i]);
    }
}

// The active ones of n lanes go into the bytes of a bool variable; a true is written as 1.
fn store_bools(bytes: &mut [u8], mask: u64, x: [u32; 16], n: usize)
    requires { (n ≤ chunk_lanes) × (length bytes.old ≡ whole bool n) }
    ensures { bytes.new ≡ stored bool (bits n mask) x bytes.old }
{
    for i in 0..n {
        if (mask >> i) & 1 == 1 {
            bytes[i] = operators::truth_byte(x[i]);
        }
    }
}

// The active ones of n lanes go into the bytes of a variable of words.
fn store_words(bytes: &mut [u8], mask: u64, x: [u32; 16], n: usize)
    requires { (n ≤ chunk_lanes) × (length bytes.old ≡ whole int n) }
    ensures { bytes.new ≡ stored int (bits n mask) x bytes.old }
{
    if n == CHUNK {
        store16(bytes, mask, x);
    } else {
        store_ints(bytes, mask, x, n);
    }
}

// Lanes of a kind as they are stored.
pub fn as_stored(kind: Kind, x: [u32; 16]) -> [u32; 16]
    ensures { result ≡ map (lane_stored kind) x }
{
    match kind {
        Kind::Int | Kind::Bool => x,
        Kind::Float => chunk::one_nans(x),
    }
}

// The active ones of n lanes go into the bytes of one variable, of a kind, as they are: those of floats are made by `as_stored` before, and
// not here, so that the lanes of ints stay in the machine's registers.
pub fn store(kind: Kind, bytes: &mut [u8], mask: u64, x: [u32; 16], n: usize)
    requires { (n ≤ chunk_lanes) × (length bytes.old ≡ whole kind n) }
    ensures { bytes.new ≡ stored (held_as kind) (bits n mask) x bytes.old }
{
    match kind {
        Kind::Int | Kind::Float => store_words(bytes, mask, x, n),
        Kind::Bool => store_bools(bytes, mask, x, n),
    }
}

// The mask of the lanes that are true, of lanes that are 0 or 1: each stands in its bit as it is.
pub fn truths(x: [u32; 16]) -> u64
    requires { ZeroOrOne x }
    ensures { result ≡ number (map truth x) }
{
    let mut r = 0u32;
    for i in 0..CHUNK {
        r = r + (x[i] << i);
    }
    r as u64
}
