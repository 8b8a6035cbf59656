// The words on standard error: what failed, or which line was refused and why.
ghost use Rattle.std.specs.Prelude.{◌≡◌, ◌≤◌, get_or};
ghost use Rattle.stdio.specs.Outcomes.{digit, refusal_number};

use crate::input::{Given, Input};
use crate::output::Outcome;

fn say(text: &[u8]) {
    io::write_all(2, text);
}

fn program(name: &[u8]) {
    say(b"yard ");
    say(name);
    say(b": ");
}

// What failed, if something did.
pub fn failure(name: &[u8], given: Given) {
    match given {
        Given::ReadFailed => {
            program(name);
            say(b"standard input cannot be read\n");
        }
        Given::WriteFailed => {
            program(name);
            say(b"standard output cannot be written\n");
        }
        _ => {}
    }
}

// A byte of a line; past its end 0.
fn byte(line: &[u8], at: usize) -> u8
    ensures { result ≡ get_or line.now at 0 }
{
    line.get(at).copied().unwrap_or(0)
}

fn digit(line: &[u8], at: usize) -> u32
    ensures value { result ≡ digit line.now at }
    ensures upper_bound { result ≤ 255 }
{
    u32::from(byte(line, at).saturating_sub(b'0'))
}

// The number of a refusal's line, `refuse=` and one digit or two.
#[tactic(auto, using(crate::proofs::OutputLaws::one_digit, crate::proofs::OutputLaws::two_digits))]
fn refusal_number(line: &[u8]) -> u32
    ensures { result ≡ refusal_number line.now }
{
    let first = digit(line, 7);
    if byte(line, 8) < b'0' {
        first
    } else {
        first * 10 + digit(line, 8)
    }
}

// Whether the last byte of the line at hand is a carriage return.
fn returns_carriage(p: Input) -> bool {
    matches!(p.line.as_bytes().last(), Some(b'\r'))
}

// Why a line is outside the grammar (10).
fn line_cause(p: Input) {
    if 40 < p.line.len {
        say(b"more than 40 bytes");
    } else if let Given::Ended = p.given {
        if p.line.len == 0 {
            say(b"the input ends too early");
        } else {
            say(b"last line is not closed");
        }
    } else if returns_carriage(p) {
        say(b"carriage return before the end of the line");
    } else {
        say(b"outside the grammar");
    }
}

// The cause of a refusal that belongs to no one line: README.md has them all.
fn cause(n: u32) {
    match n {
        1 => say(b"opening: tasks is not 1 to 8"),
        2 => say(b"opening: nodes is not 1 to 64"),
        3 => say(b"opening: buckets is not 1 to 200"),
        9 => say(b"more than 64 calls"),
        11 => say(b"opening: version is not 1 or 2"),
        13 => say(b"more than six calls of a lane, or a resize"),
        15 => say(b"more than 256 events"),
        16 => say(b"turns are not 1 to 6, tasks are fewer than 3, or task 0 runs no insert"),
        _ => say(b"refused"),
    }
}

fn line_number(p: Input) {
    say(b"line ");
    io::print_decimal(2, p.number);
    say(b": ");
}

// Which line was refused, where it is one, and why. The refusal is a number here, in `cause` and in `refusal_number`, and no enum: what is printed and told
// is the paper's number, read off the printed line, and the definitions and the crate refusal_laws say numbers.
pub fn refusal(name: &[u8], p: Input, n: u32) {
    program(name);
    match n {
        10 => {
            line_number(p);
            line_cause(p);
        }
        12 => {
            line_number(p);
            say(b"missing");
        }
        _ => cause(n),
    }
    say(b"\n");
}

// An answer that is a refusal, in words.
pub fn told(name: &[u8], p: Input, o: Outcome, text: &[u8]) {
    if let Outcome::Refused = o {
        let a = crate::output::last_line(text);
        refusal(name, p, refusal_number(&text[a..]));
    }
}
