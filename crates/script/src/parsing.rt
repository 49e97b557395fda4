// A script from its text.
ghost use Rattle.std.specs.Prelude.{◌≡◌, ◌+◌, ◌<◌, [], IfErr, None, IsUtf8, MatchResult};
ghost use Rattle.script.specs.Faults.{newlines, not_text, NotTextAt};
ghost use Rattle.script.specs.Lines.{lines_of, LineRead, Parses};
ghost use Rattle.script.specs.Progress.{progress, nothing};

use crate::fault::{ScriptFault, Wrong, at_line};
use crate::reader::{Reader, Script};
use crate::words::Words;
use std::alloc::Global;

// One more line; without words it is passed over.
fn read_line(heap: Global, reader: Reader, line: usize, text: &str) -> Result<Reader, ScriptFault>
    ensures { LineRead reader line text.now result }
{
    let words = Words::of(text);
    let words = words.as_slice();
    if words.is_empty() {
        return Ok(reader);
    }
    at_line(line, reader.take(heap, words))
}

pub fn parse(heap: Global, text: &str) -> Result<Script, ScriptFault>
    ensures lined { IfErr result (λ f. 0 < f.line) }
    ensures parsed { Parses 1 (progress None [] nothing) (lines_of text.now) result }
{
    let mut reader = Reader::new(heap);
    for (index, line) in text.lines().enumerate() {
        reader = read_line(heap, reader, index + 1, line)?;
    }
    at_line(text.lines().count() + 1, reader.finish())
}

// The line of the byte that follows.
fn line_after(before: &[u8]) -> usize
    ensures { result ≡ newlines before.now + 1 }
{
    before.iter().filter(|byte| **byte == b'\n').count() + 1
}

// The text of a script, if it is UTF-8; else the fault names the line of the first byte that is none.
pub fn text_of(bytes: &[u8]) -> Result<&str, ScriptFault>
    ensures told { MatchResult result (λ s. s.now ≡ bytes.now) (λ f. (0 < f.line) × (f.wrong ≡ not_text)) }
    ensures exact { MatchResult result (λ s. (s.now ≡ bytes.now) × IsUtf8 bytes.now) (λ f. (IsUtf8 bytes.now → ⊥) × NotTextAt bytes.now f) }
{
    std::str::from_utf8(bytes).map_err(|error| {
        let valid = error.valid_up_to().min(bytes.len());
        ScriptFault {
            line: line_after(&bytes[0..valid]),
            wrong: Wrong::NotText,
        }
    })
}
