// What the definitions and the code name alike: the kinds, the operators and the refusals of document 01.
#![tactic(auto)]

ghost use Rattle.std.specs.Prelude.{◌≡◌};
ghost use Rattle.meaning.specs.Codes.{code};
ghost use Rattle.meaning.specs.Memory.{size};
ghost use Rattle.meaning.specs.Tree.{kind_number};
ghost use Rattle.meaning.specs.Typing.{joined};

// "A type is `int` or `bool`"; document 02, R-2: "Add `float`".
#[derive(Clone, Copy, PartialEq, Eq)]
pub enum Kind {
    Int,
    Bool,
    Float,
}

// "unary `-` `~` `!`".
#[derive(Clone, Copy)]
pub enum Unary {
    Neg,
    Inv,
    Not,
}

// The other operators: `| ^ & == != < > <= >= + - *`.
#[derive(Clone, Copy)]
pub enum Binary {
    Or,
    Xor,
    And,
    Eq,
    Ne,
    Lt,
    Gt,
    Le,
    Ge,
    Add,
    Sub,
    Mul,
}

// Why a text is not run to its end: the table of "Codes", in its order.
#[derive(Clone, Copy)]
pub enum Refusal {
    TextTooLong,
    BadBytes,
    NotAllowed,
    TooDeep,
    UnknownName,
    AlreadyOpen,
    LengthNotListed,
    WrongKind,
    WrongLength,
    LengthOneTarget,
    TooManyDeclarations,
    MemoryTooShort,
    BudgetSpent,
}

// The bytes of a lane: of an int or a float, and of a bool.
pub const WORD: usize = 4;

pub const BYTE: usize = 1;

impl Kind {
    // The bytes of a lane.
    #[tactic(auto, unfolding(crate::specs::Memory::size))]
    pub fn size(self) -> usize
        ensures { result ≡ size self }
    {
        match self {
            Kind::Bool => BYTE,
            Kind::Int | Kind::Float => WORD,
        }
    }
}

// The number of a kind, as tables, programs and the stack have it.
impl From<Kind> for u32 {
    ghost from_gives = { λ kind number. number ≡ kind_number kind };

    #[tactic(auto, unfolding(crate::specs::Tree::kind_number))]
    fn from(kind: Kind) -> u32 {
        match kind {
            Kind::Int => 0,
            Kind::Bool => 1,
            Kind::Float => 2,
        }
    }
}

// The number that document 01 gives a refusal.
impl From<Refusal> for u32 {
    ghost from_gives = { λ refusal number. number ≡ code refusal };

    fn from(refusal: Refusal) -> u32 {
        match refusal {
            Refusal::TextTooLong => 1,
            Refusal::BadBytes => 2,
            Refusal::NotAllowed => 3,
            Refusal::TooDeep => 4,
            Refusal::UnknownName => 5,
            Refusal::AlreadyOpen => 6,
            Refusal::LengthNotListed => 7,
            Refusal::WrongKind => 8,
            Refusal::WrongLength => 9,
            Refusal::LengthOneTarget => 10,
            Refusal::TooManyDeclarations => 11,
            Refusal::MemoryTooShort => 12,
            Refusal::BudgetSpent => 13,
        }
    }
}

// The length of two that match; also the context's length under a condition's.
#[tactic(auto, unfolding(crate::specs::Typing::joined))]
pub fn joined(n: u32, m: u32) -> u32
    ensures { result ≡ joined n m }
{
    if n == 1 { m } else { n }
}
