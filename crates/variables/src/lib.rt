// The listing of variables: four numbers in a row for each declaration, as many as fit whole.
#![tactic(auto)]

ghost use Rattle.std.specs.Prelude.{◌≡◌, [], ◌*◌, ◌≤◌, length};
ghost use Rattle.meaning.specs.Codes.{declaration_limit};
ghost use Rattle.meaning.specs.Services.{listed};
ghost use Rattle.layout.specs.Table.{row_words, entries};

use layout::row;
use numbers::{FOUR, put_four};

// Writes the place, kind, length and address of each declaration that a table holds; every other byte stays. Names are not written,
// so no text is asked for.
pub fn list(table: &[u32], count: usize, records: &mut [u8])
    requires { (count ≤ declaration_limit) × (count * row_words ≤ length table.now) }
    ensures { records.new ≡ listed (entries [] table.now count) records.old }
{
    for i in 0..count.min(records.len() / FOUR) {
        let place = row::place(table, i) as u32;
        let kind = u32::from(row::kind(table, i));
        let lanes = row::lanes(table, i);
        let address = row::address(table, i);
        put_four(records, i * FOUR, place, kind, lanes, address);
    }
}
