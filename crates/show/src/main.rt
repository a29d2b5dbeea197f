// Runs `routine.txt` over the first 16,384 bytes of `memory.bin` with a budget of 1,000, and prints the answer and the memory.
//
// Proved: the bytes that are handed to standard output are what is shown of that run, for the bytes that came from the two
// files (`fill_page`), and the program is safe and ends. No contract can say what is read from a file or written to standard
// output, so that these are the files' bytes, and that they arrive, is the word of the system.
#![tactic(auto)]

ghost use Rattle.std.specs.Prelude.{◌≤◌, length, IfOk};
ghost use Rattle.show.specs.Page.{memory_limit, page_limit, Shows};

use layout::limit;
use numbers::FOUR;
use std::io::{Read, Write};
use std::process::ExitCode;
use std::rt::Files;
use std::{fs, io};

// The steps that a routine may take.
const BUDGET: u32 = 1000;

// One byte more than a text may have, so that a longer routine is refused and not cut.
const TEXT: usize = limit::TEXT + 1;

// The bytes of `memory.bin` that are read, as many as a routine can need, and those of a row in which they are printed.
const MEMORY: usize = 16384;

const ROW: usize = 16;

// The longest page: four numbers of ten digits, each with the byte that ends it, and a row for each 16 bytes, of two digits a byte and the
// byte that ends it.
const PAGE: usize = 4 * (10 + 1) + MEMORY / ROW * (2 * ROW + 1);

// What could not be done, and why.
#[derive(Drop)]
struct Trouble {
    what: &'static str,
    why: io::Error,
}

// Fills the page with what is shown of a run, and answers how many bytes that is.
fn fill_page(text: &[u8], memory: &mut [u8], page: &mut [u8]) -> usize
    requires { (length memory.old ≤ memory_limit) × (page_limit ≤ length page.old) }
    ensures { Shows text.now memory.old result page.new }
{
    let mut answer = [0u8; FOUR];
    ruihmento::ruihmento_run(text, memory, BUDGET, &mut answer);
    print::put_shown(page, &answer, memory)
}

// Reads until the buffer is full or the file ends; how many bytes that is.
fn read_open<F: Read>(file: &mut F, buffer: &mut [u8]) -> io::Result<usize>
    ensures { IfOk result (λ count. count ≤ length buffer.new) }
{
    let mut count = 0;
    // No `for`: each read says how many bytes it read.
    while count < buffer.len() {
        let more = file.read(&mut buffer[count..])?;
        if more == 0 {
            return Ok(count);
        }
        count += more;
    }
    Ok(count)
}

// Reads the start of a file, as much as the buffer holds; how many bytes that is.
fn read_start(rt: &impl Files, path: &str, buffer: &mut [u8]) -> io::Result<usize>
    ensures { IfOk result (λ count. count ≤ length buffer.new) }
{
    let mut file = fs::open(rt, path)?;
    read_open(&mut file, buffer)
}

// Reads the two files, and writes the page of their run to standard output.
fn show_files(rt: &(impl Files + Print)) -> Result<(), Trouble> {
    // No Vec: with buffers of its own the program ends alike on every input, also where memory is short.
    let mut text = [0u8; TEXT];
    let mut memory = [0u8; MEMORY];
    let mut page = [0u8; PAGE];
    let length = read_start(rt, "routine.txt", &mut text).map_err(|why| Trouble {
        what: "read routine.txt",
        why,
    })?;
    let size = read_start(rt, "memory.bin", &mut memory).map_err(|why| Trouble {
        what: "read memory.bin",
        why,
    })?;
    let count = fill_page(&text[..length], &mut memory[..size], &mut page);
    io::writer(rt)
        .write_all(&page[..count])
        .map_err(|why| Trouble {
            what: "write to standard output",
            why,
        })
}

// Where something could not be done, says what and why on standard error, and ends with status 1.
fn main(rt: HostRuntime) -> ExitCode {
    match show_files(&rt) {
        Ok(()) => ExitCode::SUCCESS,
        Err(Trouble { what, why }) => {
            // Where that fails too, there is nobody left to tell.
            let _ = eprintln!(rt; "show: cannot {what}: {why}");
            ExitCode::FAILURE
        }
    }
}
