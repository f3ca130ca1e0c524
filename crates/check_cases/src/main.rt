// A program for tests: each line of standard input names a case and gives the bytes of a table;
// it prints what the check answers, and for a refusal its number, its place and its words.
// It rests on the crates table, table_check, check_words and case_lines. The lines are written by tools/check_cases.py,
// which also writes what is expected. Its page is docs/check.md.
#![tactic(auto)]

use case_lines::bytes::push_hex;
use case_lines::lines::answer_lines;
use check_words::words::explain;
use std::alloc::{AllocError, Global};
use std::io;
use std::io::BufReader;
use table::loading::load;
use table_check::checking::check;

fn verdict(heap: Global, bytes: &[u8]) -> Result<String, AllocError> {
    match load(bytes) {
        Ok(table) => match check(&table) {
            Ok(()) => format!(in heap; "passed"),
            Err(broken) => {
                let number = broken.number();
                let place = broken.place();
                let words = explain(heap, &table, broken)?;
                format!(in heap; "{number} at {place}: {words}")
            }
        },
        Err(refusal) => {
            let number = refusal.number();
            format!(in heap; "not loaded: {number}")
        }
    }
}

fn answer(heap: Global, line: &str) -> Result<String, AllocError> {
    let mut words = line.split_whitespace();
    let name = words.next().unwrap_or("");
    let mut bytes = Vec::new(heap);
    push_hex(&mut bytes, words.next().unwrap_or(""))?;
    let said = verdict(heap, bytes.as_slice())?;
    format!(in heap; "{name}: {said}")
}

fn main(rt: HostRuntime) -> io::Result<()> {
    let lines = BufReader::new(rt.alloc(), rt.stdin())?;
    answer_lines(rt.alloc(), lines, &mut io::writer(&rt), |line| {
        answer(rt.alloc(), line)
    })
}
