// What a program prints: written before the next read, and at the end. Nothing is written after a read or a write that failed. The outcome is what the
// last line of the answer says, and the exit status its number.
ghost use Rattle.std.specs.Prelude.{◌≡◌, ◌≤◌, pos, length, take};
ghost use Rattle.stdio.specs.Inputs.{leaves_out};
ghost use Rattle.stdio.specs.Outcomes.{status_number, outcome_with, said, last_line_start, last_line, Passes, Ends, Exits};

use crate::input::{Given, Input};
use crate::{input, words};

// The answer is yes; it is no; the input was refused; a read or a write failed.
#[derive(Clone, Copy)]
pub enum Outcome {
    Yes,
    No,
    Refused,
    Failed,
}

// The input, and how many bytes of what was printed are not written yet.
#[derive(Clone, Copy)]
pub struct Passed {
    pub input: Input,
    pub due: usize,
}

// Writes some bytes, or none where they are not to be shown. False if a write failed.
fn show(shown: bool, text: &[u8]) -> bool {
    !shown || io::write_all(1, text)
}

// What is printed so far, the first `due` bytes of the buffer, is written if the next call for a line will read, and kept if not; where it is not to be
// shown it is dropped. If a write fails no more is to be asked for.
pub fn pass_on(p: Input, shown: bool, out: &[u8], due: usize) -> Passed
    requires { due ≤ length out.now }
    ensures { Passes p due result }
{
    if !input::will_read(p) {
        return Passed { input: p, due };
    }
    if show(shown, &out[..due]) {
        return Passed { input: p, due: 0 };
    }
    let line = input::begun(p);
    Passed {
        input: input::over(Input { line, ..p }, Given::WriteFailed),
        due: 0,
    }
}

// What the last line of an answer says.
fn text_says(text: &[u8]) -> Outcome
    ensures { result ≡ said (last_line text.now) }
{
    let a = last_line(text);
    line_says(&text[a..])
}

// Where the last line of a text begins.
#[tactic(auto, using(crate::proofs::OutputLaws::starts_here, crate::proofs::OutputLaws::starts_before, crate::proofs::OutputLaws::starts_first))]
pub fn last_line(text: &[u8]) -> usize
    ensures value { result ≡ last_line_start text.now }
    ensures upper_bound { result ≤ length text.now }
{
    for i in (1..text.len()).rev() {
        if text[i - 1] == b'\n' {
            return i;
        }
    }
    0
}

#[tactic(auto, unfolding(crate::specs::Outcomes::said))]
fn line_says(line: &[u8]) -> Outcome
    ensures { result ≡ said line.now }
{
    if session_keys::starts_with(line, b"refuse=") {
        Outcome::Refused
    } else if session_keys::starts_with(line, b"line=")
        || session_keys::starts_with(line, b"none")
        || session_keys::starts_with(line, b"office")
    {
        Outcome::No
    } else {
        Outcome::Yes
    }
}

// The answer, written at the end of a run, or what failed, on standard error. Of an input that was refused standard error has the line and the reason.
pub fn answer(name: &[u8], p: Input, text: &[u8]) -> Outcome
    ensures { Ends p text.now result }
{
    if input::has_failed(p) {
        words::failure(name, p.given);
        return Outcome::Failed;
    }
    if !io::write_all(1, text) {
        words::failure(name, Given::WriteFailed);
        return Outcome::Failed;
    }
    let o = text_says(text);
    words::told(name, p, o, text);
    o
}

// The outcome of an answer that goes by the lines before the last one, if that is left out: told as a refusal is, unless something failed.
#[tactic(auto, unfolding(crate::specs::Outcomes::outcome_with, crate::specs::Outcomes::refused_unless_failed))]
pub fn left_out(name: &[u8], p: Input, o: Outcome) -> Outcome
    ensures { result ≡ outcome_with (leaves_out p) o }
{
    if !input::leaves_out(p) {
        return o;
    }
    match o {
        Outcome::Yes | Outcome::No => {
            words::refusal(name, p, 10);
            Outcome::Refused
        }
        Outcome::Refused | Outcome::Failed => o,
    }
}

// The exit status.
#[tactic(auto, unfolding(crate::specs::Outcomes::status_number))]
pub fn status(o: Outcome) -> i32
    ensures { result ≡ pos (status_number o) }
{
    match o {
        Outcome::Yes => 0,
        Outcome::No => 1,
        Outcome::Refused => 2,
        Outcome::Failed => 3,
    }
}

// The input where no more is asked for, and how many bytes of the buffer are the text that is to be written then.
#[derive(Clone, Copy)]
pub struct Text {
    pub input: Input,
    pub len: usize,
}

// The text, written at the end of a run, and the exit status.
pub fn exit(name: &[u8], t: Text, out: &[u8]) -> i32
    requires { t.len ≤ length out.now }
    ensures { Exits t.input (take t.len out.now) result }
{
    status(answer(name, t.input, &out[..t.len]))
}
