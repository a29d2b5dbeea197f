// The services, as a collector calls them. None asks anything of its caller.
// No bool for a status and no Result for a code: C takes them as numbers. No struct of what a run is lent, images and answers: it would hold
// `&mut`s, as in `engine`.
#![tactic(auto)]

ghost use Rattle.std.specs.Prelude.{◌≡◌, [], ◌∷◌, ◌*◌, ◌≤◌, length};
ghost use Rattle.meaning.specs.Codes.{code, text_limit};
ghost use Rattle.meaning.specs.Services.{judge_call, variables_call, run_call, how_many, run_each_call, with_numbers, Kept};
ghost use Rattle.layout.specs.Sizes.{token_room, table_room};
ghost use Rattle.layout.specs.Instructions.{chunk_lanes};
ghost use Rattle.laws.specs.Sound.{stack_limit};
ghost use Rattle.numbers.specs.Sizes.{four_bytes};
ghost use Rattle.ruihmento.specs.Contract.{TextRoom, JudgesTable, RunningRoom, Tellable, with_refusal, ImagesRoom, RunsEach, Refusable, RefusesEach};
ghost use Rattle.ruihmento.specs.Contract.{SomePlanned, PerformsPlanned, SomePrepared, PerformsEach, Performs};

use engine::execute;
use judge::judge;
use layout::{Refused, Stage, UNIT, instruction, size, token};
use meaning::Refusal;
use numbers::{FOUR, put_four};
use plan::plan;
use typing_expressions::need;
use variables::list;

// The bytes of an answer: four numbers.
const ANSWER: usize = FOUR;

// The bytes of a small and of a short text, which are judged in buffers of their own sizes: a buffer is set to zero at each call.
const SMALL: usize = 128;

const SHORT: usize = 512;

// The words of the trees of a small, of a short and of a long text, and those of its tokens, which become its program.
const SMALL_TREE: usize = SMALL * UNIT;

const SMALL_CODE: usize = (SMALL + 1) * token::WORDS;

const SHORT_TREE: usize = SHORT * UNIT;

const SHORT_CODE: usize = (SHORT + 1) * token::WORDS;

const LONG_TREE: usize = size::TREE;

const LONG_CODE: usize = size::TOKENS;

// The words of the plans of their programs: at most two for each of a program.
const SMALL_PLAN: usize = 2 * SMALL_CODE;

const SHORT_PLAN: usize = 2 * SHORT_CODE;

const LONG_PLAN: usize = 2 * LONG_CODE;

// How many values wait at most in the expressions of a program of few, and of one of more words: an expression leaves one waiting for
// each six of its words.
const FEW: usize = 32;

const MORE: usize = 128;

const FEW_WORDS: usize = 2 * UNIT * FEW - UNIT;

const MORE_WORDS: usize = 2 * UNIT * MORE - UNIT;

// The words of their registers, and of those of any program: a chunk for each value.
const FEW_REGISTERS: usize = FEW * instruction::CHUNK;

const MORE_REGISTERS: usize = MORE * instruction::CHUNK;

const ALL_REGISTERS: usize = size::WAITING * instruction::CHUNK;

// Memories that are run one after another: the bytes of each, how many there are, and the steps that each may take.
#[derive(Clone, Copy)]
struct Batch {
    size: usize,
    count: usize,
    budget: u32,
}

// Writes the four numbers.
fn tell(answer: &mut [u8], code: u32, place: u32, need: u32, steps: u32)
    requires { four_bytes ≤ length answer.old }
    ensures { answer.new ≡ with_numbers (code ∷ place ∷ need ∷ steps ∷ []) answer.old }
{
    put_four(answer, 0, code, place, need, steps);
}

// Writes the numbers of a refusal.
fn tell_refusal(answer: &mut [u8], why: Refused)
    requires { Tellable why answer.old }
    ensures { answer.new ≡ with_refusal why answer.old }
{
    tell(answer, u32::from(why.refusal), why.place as u32, 0, 0);
}

// The verdict of a text.
pub fn ruihmento_judge(text: &[u8], answer: &mut [u8]) -> u32
    ensures { Kept (judge_call text.now answer.old) result answer.new tt }
{
    if answer.len() < ANSWER {
        return 0;
    }
    let mut table = [0u32; size::TABLE];
    match judge_text(text, &mut table) {
        Ok(judged) => tell(answer, 0, 0, need(&table, judged.count), 0),
        Err(why) => tell_refusal(answer, why),
    }
    1
}

// Where the variables of a text lie.
pub fn ruihmento_variables(text: &[u8], records: &mut [u8], answer: &mut [u8]) -> u32
    ensures { Kept (variables_call text.now records.old answer.old) result answer.new records.new }
{
    if answer.len() < ANSWER {
        return 0;
    }
    let mut table = [0u32; size::TABLE];
    match judge_text(text, &mut table) {
        Ok(judged) => {
            let count = judged.count;
            list(&table, count, records);
            tell(answer, 0, 0, need(&table, count), count as u32);
        }
        Err(why) => tell_refusal(answer, why),
    }
    1
}

// Judges a text in buffers of its size, which end with the call: its declarations go into the table.
fn judge_text(text: &[u8], table: &mut [u32]) -> Stage
    requires { table_room ≤ length table.old }
    ensures { JudgesTable text.now table.new result }
{
    if text.len() <= SMALL {
        judge_with::<SMALL_TREE, SMALL_CODE>(text, table)
    } else if text.len() <= SHORT {
        judge_with::<SHORT_TREE, SHORT_CODE>(text, table)
    } else {
        judge_with::<LONG_TREE, LONG_CODE>(text, table)
    }
}

// Judges a text in buffers of so many words: a function for each size, so that a call has the stack of one of them.
fn judge_with<const TREE: usize, const CODE: usize>(text: &[u8], table: &mut [u32]) -> Stage
    requires room { TextRoom text.now TREE CODE }
    requires few { CODE ≤ token_room text_limit }
    requires rows_room { table_room ≤ length table.old }
    ensures { JudgesTable text.now table.new result }
{
    let mut tree = [0u32; TREE];
    let mut code = [0u32; CODE];
    let mut stack = [0u32; size::STACK];
    judge(text, &mut tree, table, &mut code, &mut stack)
}

// Runs a text over a lent memory.
pub fn ruihmento_run(text: &[u8], memory: &mut [u8], budget: u32, answer: &mut [u8]) -> u32
    ensures { Kept (run_call text.now memory.old budget answer.old) result answer.new memory.new }
{
    if answer.len() < ANSWER {
        return 0;
    }
    let batch = Batch {
        size: memory.len(),
        count: 1,
        budget,
    };
    run_images(text, memory, batch, answer);
    1
}

// Runs a text, judged once, over each of the images that stand whole.
pub fn ruihmento_run_each(
    text: &[u8],
    images: &mut [u8],
    size: usize,
    budget: u32,
    answers: &mut [u8],
) -> usize
    ensures { Kept (run_each_call text.now images.old size budget answers.old) result answers.new images.new }
{
    let count = how_many(images, size, answers);
    if count == 0 {
        return 0;
    }
    let batch = Batch {
        size,
        count,
        budget,
    };
    run_images(text, images, batch, answers);
    count
}

// How many images of a size stand whole, with their answers.
fn how_many(images: &[u8], size: usize, answers: &[u8]) -> usize
    ensures { result ≡ how_many size images.now answers.now }
{
    if size == 0 {
        return 0;
    }
    (images.len() / size).min(answers.len() / ANSWER)
}

// Runs a text over each image, with buffers of its size.
fn run_images(text: &[u8], images: &mut [u8], batch: Batch, answers: &mut [u8])
    requires { ImagesRoom batch.size batch.count images.old answers.old }
    ensures { RunsEach text.now batch (images.old, answers.old) (images.new, answers.new) }
{
    if text.len() <= SMALL {
        run_with::<SMALL_CODE, SMALL_PLAN>(text, images, batch, answers);
    } else if text.len() <= SHORT {
        run_with::<SHORT_CODE, SHORT_PLAN>(text, images, batch, answers);
    } else {
        run_with::<LONG_CODE, LONG_PLAN>(text, images, batch, answers);
    }
}

// Runs a text over each image, with buffers of so many words: a function for each size, so that a call has the stack of one of them. The
// text is judged and planned once; its tree stands where its plan will.
fn run_with<const CODE: usize, const PLAN: usize>(
    text: &[u8],
    images: &mut [u8],
    batch: Batch,
    answers: &mut [u8],
)
    requires room { RunningRoom text.now CODE PLAN }
    requires few { PLAN ≤ 2 * token_room text_limit }
    requires images_room { ImagesRoom batch.size batch.count images.old answers.old }
    ensures { RunsEach text.now batch (images.old, answers.old) (images.new, answers.new) }
{
    let mut code = [0u32; CODE];
    let mut planned = [0u32; PLAN];
    let mut table = [0u32; size::TABLE];
    let mut stack = [0u32; size::STACK];
    let room = CODE - token::WORDS;
    match judge(
        text,
        &mut planned[..room],
        &mut table,
        &mut code,
        &mut stack,
    ) {
        Ok(judged) => {
            let words = plan(&code[..judged.size], &table, &mut planned, &mut stack);
            let bytes = need(&table, judged.count);
            run_planned(
                judged.size,
                &planned[..words],
                bytes,
                images,
                batch,
                answers,
            );
        }
        Err(why) => refuse_each(answers, batch.count, why),
    }
}

// Tells the refusal of a text of each of so many images.
// No `chunks_exact_mut`: once an iterator has lent the parts of a slice, a proof knows how long the slice is and none of its bytes.
fn refuse_each(answers: &mut [u8], count: usize, why: Refused)
    requires { Refusable why count answers.old }
    ensures { RefusesEach why count answers.old answers.new }
{
    for told in 0..count {
        let from = told * ANSWER;
        let to = from + ANSWER;
        tell_refusal(&mut answers[from..to], why);
    }
}

// Runs the plan of an accepted program of so many words over each image, with as many registers as its words ask for.
#[tactic(auto, unfolding(laws::specs::Sound::stack_limit))]
fn run_planned(
    words: usize,
    code: &[u32],
    need: u32,
    images: &mut [u8],
    batch: Batch,
    answers: &mut [u8],
)
    requires { ImagesRoom batch.size batch.count images.old answers.old × SomePlanned words code.now need }
    ensures { PerformsPlanned words code.now need batch (images.old, answers.old) (images.new, answers.new) }
{
    if words <= FEW_WORDS {
        perform_each::<FEW_REGISTERS>(code, need, images, batch, answers);
    } else if words <= MORE_WORDS {
        perform_each::<MORE_REGISTERS>(code, need, images, batch, answers);
    } else {
        perform_each::<ALL_REGISTERS>(code, need, images, batch, answers);
    }
}

// Runs a plan over each image, with so many words of registers, and writes their answers.
// No `chunks_exact_mut`: as in `refuse_each`; and a memory that is lent to a run may have no bytes.
#[tactic(auto, unfolding(laws::specs::Sound::stack_limit))]
fn perform_each<const REGISTERS: usize>(
    code: &[u32],
    need: u32,
    images: &mut [u8],
    batch: Batch,
    answers: &mut [u8],
)
    requires room { ImagesRoom batch.size batch.count images.old answers.old }
    requires few { REGISTERS ≤ stack_limit * chunk_lanes }
    requires prepared { SomePrepared code.now REGISTERS need }
    ensures { PerformsEach code.now REGISTERS need batch (images.old, answers.old) (images.new, answers.new) }
{
    let mut registers = [0u32; REGISTERS];
    let size = batch.size;
    let budget = batch.budget;
    for k in 0..batch.count {
        let at = k * size;
        let end = at + size;
        let from = k * ANSWER;
        let to = from + ANSWER;
        perform(
            code,
            need,
            &mut images[at..end],
            budget,
            &mut registers,
            &mut answers[from..to],
        );
    }
}

// Runs a plan over one memory, if it has the bytes that are needed, and writes its answer.
fn perform(
    code: &[u32],
    need: u32,
    memory: &mut [u8],
    budget: u32,
    registers: &mut [u32],
    answer: &mut [u8],
)
    requires { (four_bytes ≤ length answer.old) × SomePrepared code.now (length registers.old) need }
    ensures { Performs code.now (length registers.old) need budget (memory.old, answer.old) (memory.new, answer.new) }
{
    if memory.len() < need as usize {
        tell(answer, u32::from(Refusal::MemoryTooShort), 0, need, 0);
        return;
    }
    match execute(code, memory, budget, registers) {
        Ok(left) => tell(answer, 0, 0, need, budget - left as u32),
        Err(due) => {
            let place = due.place as u32;
            tell(answer, u32::from(Refusal::BudgetSpent), place, need, budget);
        }
    }
}
