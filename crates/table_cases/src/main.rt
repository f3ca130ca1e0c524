// A program for tests: each line of standard input names a case and gives the bytes of a table;
// it prints what load answers, and for a refusal also its words. It rests on the crates table, listing and case_lines.
// The lines are written by tools/table_cases.py, which also writes what is expected.
#![tactic(auto)]

use case_lines::bytes::push_hex;
use case_lines::lines::answer_lines;
use listing::explained::explain;
use std::alloc::{AllocError, Global};
use std::io;
use std::io::BufReader;
use table::loading::load;

// A word is hexadecimal bytes, or so many zero bytes: 0*65536.
fn push_word(out: &mut Vec<u8>, word: &str) -> Result<(), AllocError> {
    match word.strip_prefix("0*") {
        Some(count) => {
            let count = count.parse::<u32>().unwrap_or(0);
            out.resize(out.len() + count as usize, 0)
        }
        None => push_hex(out, word),
    }
}

fn answer(heap: Global, line: &str) -> Result<String, AllocError> {
    let mut words = line.split_whitespace();
    let name = words.next().unwrap_or("");
    let mut bytes = Vec::new(heap);
    for word in words {
        push_word(&mut bytes, word)?;
    }
    match load(bytes.as_slice()) {
        Ok(_) => format!(in heap; "{name}: loaded"),
        Err(refusal) => {
            let number = refusal.number();
            let place = refusal.place();
            let words = explain(heap, refusal)?;
            match place {
                Some(place) => format!(in heap; "{name}: {number} at {place}: {words}"),
                None => format!(in heap; "{name}: {number}: {words}"),
            }
        }
    }
}

fn main(rt: HostRuntime) -> io::Result<()> {
    let lines = BufReader::new(rt.alloc(), rt.stdin())?;
    answer_lines(rt.alloc(), lines, &mut io::writer(&rt), |line| {
        answer(rt.alloc(), line)
    })
}
