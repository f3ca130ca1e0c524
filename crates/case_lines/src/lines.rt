// An answer to each line that is read.
ghost use Rattle.std.specs.Prelude.{OnOk};
ghost use Rattle.case_lines.specs.Lines.{AnswersLines, Says};

use std::alloc::{AllocError, Global};
use std::io;
use std::io::{BufRead, Write};

// Writes what `answer` says of each line of `input`, as a line of `output`.
pub fn answer_lines<R: BufRead + Drop, W: Write, F: Fn(&str) -> Result<String, AllocError>>(
    heap: Global,
    input: R,
    output: &mut W,
    answer: F,
) -> io::Result<()>
    requires { F.IsAlwaysCallable answer }
    ensures { OnOk result (AnswersLines (Says F.Fn answer) (R.Read.remaining input) (W.contents output.old) (W.contents output.new)) }
{
    for line in input.lines(heap) {
        let line = line?;
        let mut said = answer(line.as_str())?;
        // The answer and its line break go out in one write: where two programs write into one pipe, Linux keeps a
        // write of at most 4,096 bytes whole. Only where there is no memory for the line break do they go out in two.
        match said.push_str("\n") {
            Ok(()) => output.write_all(said.as_bytes())?,
            Err(_) => writeln!(output, "{said}")?,
        }
    }
    Ok(())
}
