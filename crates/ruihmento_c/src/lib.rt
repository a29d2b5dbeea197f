// The services as C calls them, in the archive that collectors link. Each is the library's, of which it promises the same; `docs/CONTRACTS.md`
// says what that is.
// No one function for the two: a crate is a library or a static library, and C's names are exported by the one that is linked.
#![tactic(auto)]

ghost use Rattle.meaning.specs.Services.{judge_call, variables_call, run_call, run_each_call, Kept};

// The verdict of a text.
#[unsafe(no_mangle)]
pub extern "C" fn ruihmento_judge(text: &[u8], answer: &mut [u8]) -> u32
    ensures { Kept (judge_call text.now answer.old) result answer.new tt }
{
    ruihmento::ruihmento_judge(text, answer)
}

// Where the variables of a text lie.
#[unsafe(no_mangle)]
pub extern "C" fn ruihmento_variables(text: &[u8], records: &mut [u8], answer: &mut [u8]) -> u32
    ensures { Kept (variables_call text.now records.old answer.old) result answer.new records.new }
{
    ruihmento::ruihmento_variables(text, records, answer)
}

// Runs a text over a lent memory.
#[unsafe(no_mangle)]
pub extern "C" fn ruihmento_run(
    text: &[u8],
    memory: &mut [u8],
    budget: u32,
    answer: &mut [u8],
) -> u32
    ensures { Kept (run_call text.now memory.old budget answer.old) result answer.new memory.new }
{
    ruihmento::ruihmento_run(text, memory, budget, answer)
}

// Runs a text, judged once, over each of the images that stand whole.
#[unsafe(no_mangle)]
pub extern "C" fn ruihmento_run_each(
    text: &[u8],
    images: &mut [u8],
    size: usize,
    budget: u32,
    answers: &mut [u8],
) -> usize
    ensures { Kept (run_each_call text.now images.old size budget answers.old) result answers.new images.new }
{
    ruihmento::ruihmento_run_each(text, images, size, budget, answers)
}
