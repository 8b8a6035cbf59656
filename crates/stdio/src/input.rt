// An input by lines, standard input or bytes in memory: `next_line` gives what is known of the next one after at most one read. No line is kept beyond its
// 41st byte, and no byte is read after one that fixed the answer.
ghost use Rattle.std.specs.Prelude.{◌≡◌, length, eqb};
ghost use Rattle.stdio.specs.Inputs.{given_number, is_line, is_long, at_end, goes_on, failed, unclosed_end, cut_off, leaves_out, begun_line};
ghost use Rattle.stdio.specs.Inputs.{line_number, given_of, left_of, begin, with_given, settled_if, Fits, Taken, Gives};
ghost use Rattle.stdio.specs.Outcomes.{will_read};

use crate::source::Source;
use partial_line::PartialLine;

// What the last call gave: a part of a line, which may go on; a line that byte 10 closed; 41 bytes of one, which is too long however it goes on. Then, where
// no more is asked for: a line that fixed the answer; the end of the input, in the middle of a line if that has bytes; a read or a write that failed.
#[derive(Clone, Copy)]
pub enum Given {
    Part,
    Line,
    TooLong,
    Settled,
    Ended,
    ReadFailed,
    WriteFailed,
}

// Standard input as far as it is handed on. The bytes of the room from `at` to `end` are read and not handed on yet; `reads` says whether more may be
// read (it is false over an input that is in memory); `number` is the number of the line at hand, from 1. A proved loop has to end, and nothing says that
// an input does: `left` is counted down from a number that no run uses up, and is 0 where no more is to be asked for.
#[derive(Clone, Copy)]
pub struct Input {
    pub at: usize,
    pub end: usize,
    pub reads: bool,
    pub number: u64,
    pub left: u64,
    pub line: PartialLine,
    pub given: Given,
}

// One read of the input.
pub fn room() -> [u8; 1024]
    ensures { 1024 ≡ length result }
{
    [0; 1024]
}

// Standard input, of which nothing is read yet, or n bytes that are in memory, all of them at hand.
#[tactic(auto, unfolding(crate::specs::Inputs::begin))]
pub fn begin(reads: bool, n: usize) -> Input
    ensures { result ≡ begin reads n }
{
    Input {
        at: 0,
        end: if reads { 0 } else { n },
        reads,
        number: 1,
        left: u64::MAX,
        line: partial_line::empty_line(),
        given: Given::Part,
    }
}

// Whether more may be asked for.
#[tactic(auto, unfolding(crate::specs::Inputs::given_number))]
fn goes_on(given: Given) -> bool
    ensures { result ≡ goes_on given }
{
    matches!(given, Given::Part | Given::Line)
}

// Whether the last call gave a closed line.
#[tactic(auto, unfolding(crate::specs::Inputs::given_number))]
pub fn has_line(p: Input) -> bool
    ensures { result ≡ is_line p.given }
{
    matches!(p.given, Given::Line)
}

// Whether the line at hand is too long.
#[tactic(auto, unfolding(crate::specs::Inputs::given_number))]
pub fn has_long(p: Input) -> bool
    ensures { result ≡ is_long p.given }
{
    matches!(p.given, Given::TooLong)
}

#[tactic(auto, unfolding(crate::specs::Inputs::given_number))]
pub fn has_ended(p: Input) -> bool
    ensures { result ≡ at_end p.given }
{
    matches!(p.given, Given::Ended)
}

// Whether a read or a write failed.
#[tactic(auto, unfolding(crate::specs::Inputs::given_number))]
pub fn has_failed(p: Input) -> bool
    ensures { result ≡ failed p.given }
{
    matches!(p.given, Given::ReadFailed | Given::WriteFailed)
}

// Whether the input ended in the middle of a line.
pub fn unclosed(p: Input) -> bool
    ensures { result ≡ unclosed_end p }
{
    has_ended(p) && p.line.len != 0
}

// Whether the last line is outside the grammar: too long, or not closed.
#[tactic(auto, unfolding(crate::specs::Inputs::cut_off))]
pub fn cut_off(p: Input) -> bool
    ensures { result ≡ cut_off p }
{
    has_long(p) || unclosed(p)
}

// Whether a line fixed the answer.
#[tactic(auto, unfolding(crate::specs::Inputs::given_number))]
fn has_settled(p: Input) -> bool
    ensures { result ≡ eqb (given_number p.given) 3 }
{
    matches!(p.given, Given::Settled)
}

// Whether the last line is left out of an answer that goes by the lines before it: it fixed the answer, or is outside the grammar.
#[tactic(auto, unfolding(crate::specs::Inputs::leaves_out))]
pub fn leaves_out(p: Input) -> bool
    ensures { result ≡ leaves_out p }
{
    has_settled(p) || cut_off(p)
}

// The next call for a line will read: nothing is at hand.
#[tactic(auto, unfolding(crate::specs::Outcomes::will_read))]
pub(crate) fn will_read(p: Input) -> bool
    ensures { result ≡ will_read p }
{
    goes_on(p.given) && p.reads && p.end <= p.at
}

// The line that is begun: none after one that was given whole.
#[tactic(auto, unfolding(crate::specs::Inputs::begun_line))]
pub fn begun(p: Input) -> PartialLine
    ensures { result ≡ begun_line p }
{
    if has_line(p) {
        PartialLine { len: 0, ..p.line }
    } else {
        p.line
    }
}

// The number of the line that is begun.
#[tactic(auto, unfolding(crate::specs::Inputs::line_number))]
fn line_number(p: Input) -> u64
    ensures { result ≡ line_number p }
{
    if has_line(p) {
        p.number.saturating_add(1)
    } else {
        p.number
    }
}

#[tactic(auto, unfolding(crate::specs::Inputs::given_of))]
fn given_by(closed: bool, len: usize) -> Given
    ensures { result ≡ given_of closed len }
{
    if closed {
        Given::Line
    } else if len < 41 {
        Given::Part
    } else {
        Given::TooLong
    }
}

// How many calls are left after one that gave this.
#[tactic(auto, unfolding(crate::specs::Inputs::left_of))]
fn left_after(given: Given, n: u64) -> u64
    ensures { result ≡ left_of given n }
{
    if goes_on(given) { n } else { 0 }
}

// No more is to be asked for.
pub fn over(p: Input, given: Given) -> Input
    ensures { result ≡ with_given p given }
{
    Input {
        left: 0,
        given,
        ..p
    }
}

// After a line that fixes the answer, or does not.
#[tactic(auto, unfolding(crate::specs::Inputs::settled_if))]
pub fn settle(p: Input, settled: bool) -> Input
    ensures { result ≡ settled_if settled p }
{
    if settled { over(p, Given::Settled) } else { p }
}

// The input after some bytes of the room, which are at hand, where the line at hand is begun and n calls are left.
fn taken(p: Input, n: u64, room: &[u8]) -> Input
    requires { Fits p room.now }
    ensures { Taken p.line p.at p.end p.reads n room.now result }
{
    let f = partial_line::fill(p.line, &room[p.at..p.end]);
    let given = given_by(f.closed, f.line.len);
    Input {
        at: p.at + f.used,
        left: left_after(given, n),
        line: f.line,
        given,
        ..p
    }
}

// What is known of the next line, after at most one read, for which nothing may be at hand.
pub fn next_line<S: Source>(from: &mut S, p: Input, room: &mut [u8]) -> Input
    requires { Fits p room.old }
    ensures { Gives p room.old result room.new }
{
    let q = Input {
        number: line_number(p),
        line: begun(p),
        ..p
    };
    if p.left < 2 {
        return over(q, Given::ReadFailed);
    }
    let n = p.left - 1;
    if p.at < p.end {
        return taken(q, n, room);
    }
    let none = Input { at: 0, end: 0, ..q };
    if !p.reads {
        return over(none, Given::Ended);
    }
    match from.read(room) {
        Err(_) => over(none, Given::ReadFailed),
        Ok(0) => over(none, Given::Ended),
        Ok(count) => taken(Input { end: count, ..none }, n, room),
    }
}
