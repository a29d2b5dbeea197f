// A text to its verdict: its tokens, their tree, and what typing makes of it.
#![tactic(auto)]

ghost use Rattle.judge.specs.Contract.{JudgingRoom, JudgesText};

use layout::Stage;
use reading::read;
use tokens::lex;
use typing::program;

// Judges a text: its declarations go into the table and its typed program into the code, where its tokens stand first; how many
// declarations and words of code there are, or the first refusal of 1 to 11.
pub fn judge(
    text: &[u8],
    tree: &mut [u32],
    table: &mut [u32],
    code: &mut [u32],
    stack: &mut [u32],
) -> Stage
    requires { JudgingRoom text.now tree.old table.old code.old stack.old }
    ensures { JudgesText text.now table.new code.new result }
{
    let lexed = lex(text, code)?;
    let tree_read = read(&code[..lexed.size], tree);
    let Ok(parsed) = tree_read else {
        // No `?`: must-fail/unread-accepted returns another answer here.
        return tree_read;
    };
    program(text, &tree[..parsed.size], table, code, stack)
}
