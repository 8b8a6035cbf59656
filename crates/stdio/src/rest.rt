// A line that is too long, for a program to which it matters whether byte 10 closes it: it reads on to that byte.
ghost use Rattle.std.specs.Prelude.{◌≡◌, ◌<◌, length};
ghost use Rattle.partial_line.specs.PartialLines.{line_bytes};
ghost use Rattle.stdio.specs.declared.input.Given.TheVariants.{TooLong};
ghost use Rattle.stdio.specs.Inputs.{Fits};
ghost use Rattle.stdio.specs.LongLines.{resumed, passed, line_of, Closes};

use crate::input::{Given, Input};
use crate::source::Source;
use partial_line::PartialLine;

// The bytes of the line that are at hand are passed over, and n calls are left.
fn resume(p: Input, n: u64) -> Input
    ensures { result ≡ resumed p n }
{
    Input {
        left: n,
        line: PartialLine { len: 0, ..p.line },
        given: Given::Part,
        ..p
    }
}

// A part of the line is passed over; byte 10 fixes the answer.
#[tactic(auto, unfolding(crate::specs::LongLines::passed))]
fn pass(t: Input, n: u64) -> Input
    ensures { result ≡ passed t.given t n }
{
    match t.given {
        Given::Part | Given::TooLong => resume(t, n),
        Given::Line => crate::input::over(t, Given::Settled),
        Given::Settled | Given::Ended | Given::ReadFailed | Given::WriteFailed => t,
    }
}

fn back(p: Input, q: Input) -> Input
    ensures { result ≡ line_of p q }
{
    Input {
        number: p.number,
        left: 0,
        line: p.line,
        ..q
    }
}

// Reads on to the byte 10 that closes a line that is too long, or to the end of the input.
pub fn close_line<S: Source>(from: &mut S, p: Input, room: &mut [u8]) -> Input
    requires { Fits p room.old × (p.given ≡ TooLong) × (0 < length (line_bytes p.line)) }
    ensures { Closes p room.old result room.new }
{
    let mut q = resume(p, u64::MAX);
    while 0 < q.left {
        let n = q.left - 1;
        let t = crate::input::next_line(from, q, room);
        q = pass(t, n);
    }
    back(p, q)
}
