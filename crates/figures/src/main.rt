// Compares figures of the crate `values` with expected ones: a figure to a line of the input.
// A blank line and one that begins with # are passed over.
#![tactic(auto)]

mod figure;
mod parse;
mod tally;
mod verdict;

use parse::parse_line;
use std::io;
use std::io::{BufRead, BufReader, BufWriter, Write};
use tally::Tally;

fn is_figure(line: &str) -> bool {
    !line.trim().is_empty() && !line.starts_with('#')
}

// Writes whether the line is right, and answers it.
fn compare<W: Write>(out: &mut W, line: &str) -> io::Result<bool> {
    let Some(vector) = parse_line(line) else {
        writeln!(out, "WRONG {line}: not a figure")?;
        return Ok(false);
    };
    let verdict = vector.verdict();
    match verdict {
        Ok(()) => writeln!(out, "ok {line}")?,
        Err(outcome) => writeln!(out, "WRONG {line}: {outcome}")?,
    }
    Ok(verdict.is_ok())
}

fn main(rt: HostRuntime) -> io::Result<()> {
    let mut tally = Tally::default();
    let mut out = BufWriter::new(rt.alloc(), rt.stdout())?;
    for line in BufReader::new(rt.alloc(), rt.stdin())?.lines(rt.alloc()) {
        let line = line?;
        if is_figure(&line) {
            tally.count(compare(&mut out, &line)?);
        }
    }
    writeln!(out, "{tally}")?;
    out.flush()
}
