// yardverify: what a reader of recordings answers, the recording on standard input or in memory and `same`, `line=N` or `refuse=N` on standard output. It
// holds one read of the input, one line, and the two pools.
ghost use Rattle.std.specs.Prelude.{◌≡◌, Bool, true, List, ℕ, ◌<◌, ◌≤◌, length, take};
ghost use Rattle.session_bytes.specs.Pages.{Appends};
ghost use Rattle.partial_line.specs.PartialLines.{line_bytes};
ghost use Rattle.recording.specs.Reader as defined;
ghost use Rattle.stdio.specs.declared.input.Given.TheVariants.{TooLong};
ghost use Rattle.stdio.specs.Inputs.{Fits};
ghost use Rattle.stdio.specs.Readers.{after_call, Follows};
ghost use Rattle.stdio.specs.Runs.{Prints, Ran};
ghost use Rattle.reader_state.specs.Standing.{most_lines, line_read, ReadAs};
ghost use Rattle.reader.specs.AsDefined.{AsDefined, is_decided};
ghost use Rattle.reader.specs.KnownMemory.{KnownIn};
ghost use Rattle.reader.specs.Verifies.{verdict_text, verify_output, take_line, lines_text, Reading, Verifies, EndedAs, LongGives};

use crate::by_line;
use reader_state::Reader;
use recording::{ReaderPhase, Verdict};
use session_bytes::Page;
use stdio::input::Input;
use stdio::output::Text;
use stdio::source::Source;
use stdio::{input, rest};

// Whether the answer is given.
#[tactic(auto, unfolding(crate::specs::AsDefined::is_decided))]
fn is_decided(phase: ReaderPhase) -> bool
    ensures { result ≡ is_decided phase }
{
    matches!(phase, ReaderPhase::Decided(_))
}

// A closed line that is at hand is read.
fn take_given(r: Reader, q: Input, ns: &mut [u32], bs: &mut [u32]) -> Reader
    requires { KnownIn true r ns.old bs.old }
    ensures { ReadAs (after_call take_line (line_read r ns.old bs.old) q) result ns.new bs.new }
{
    if !input::has_line(q) {
        return r;
    }
    by_line::read_line(true, r, ns, bs, q.line.as_bytes())
}

// The input and the reader, where reading stopped.
#[derive(Clone, Copy)]
pub struct ReadTo {
    pub input: Input,
    pub reader: Reader,
}

// Reads until the input ends, the answer is given, or a line is too long. It is none of line_readers: where recording's reader stands (`Reading.place`) is
// no function of this reader and its pools, since before the opening it may have any machine, and the number of its line is held against the calls that are
// left (`numbered`).
fn read<S: Source>(
    from: &mut S,
    reads: bool,
    room: &mut [u8],
    ns: &mut [u32],
    bs: &mut [u32],
) -> ReadTo
    requires { (2176 ≤ length ns.old) × (13200 ≤ length bs.old) }
    ensures reading { Reading reads room.old result.input room.new result.reader ns.new bs.new }
    ensures left_bound { result.input.left ≤ 0 }
{
    let mut p = input::begin(reads, room.len());
    let mut r = reader_state::new_reader();
    // a call takes a line or a part of one, so how many there are is not known before
    while 0 < p.left {
        let q = input::next_line(from, p, room);
        r = take_given(r, q, ns, bs);
        p = input::settle(q, is_decided(r.phase));
    }
    ReadTo {
        input: p,
        reader: r,
    }
}

// Whether two answers are one refusal.
fn same_refusal(u: Verdict, v: Verdict) -> bool
    ensures { result ≡ true → u ≡ v }
{
    matches!(u, Verdict::Refusal(_)) && u == v
}

// The answer, and the input where it was found.
#[derive(Clone, Copy)]
pub struct Answered {
    pub input: Input,
    pub verdict: Verdict,
}

// What a line that is too long gives: if it is not closed, and if it is.
#[derive(Clone, Copy)]
pub struct LongLine {
    pub unclosed: Verdict,
    pub closed: Verdict,
}

fn long_gives(r: Reader, p: Input, ns: &mut [u32], bs: &mut [u32]) -> LongLine
    requires { KnownIn true r ns.old bs.old }
    ensures { (e : defined.Reader) → AsDefined (line_read r ns.old bs.old) e → e.number < most_lines
        → length (line_bytes p.line) ≡ 41 → LongGives e (line_bytes p.line) result }
{
    let unclosed = by_line::read_end(false, r, ns, bs);
    let s = by_line::read_line(true, r, ns, bs, p.line.as_bytes());
    let closed = by_line::read_end(true, s, ns, bs);
    LongLine { unclosed, closed }
}

// A line that is too long. Where it gives the same refusal whether it is closed or not nothing more is read; otherwise the line is read to its end.
fn long_line<S: Source>(from: &mut S, g: LongLine, p: Input, room: &mut [u8]) -> Answered
    requires { Fits p room.old × (p.given ≡ TooLong) × (0 < length (line_bytes p.line)) }
    ensures { (reads : Bool) (input : List ℕ) (e : defined.Reader) → Follows lines_text reads input defined.new_reader p room.old e
        → LongGives e (line_bytes p.line) g → Verifies reads input result }
{
    if same_refusal(g.unclosed, g.closed) {
        return Answered {
            input: p,
            verdict: g.closed,
        };
    }
    let q = rest::close_line(from, p, room);
    let verdict = if input::has_ended(q) {
        g.unclosed
    } else {
        g.closed
    };
    Answered { input: q, verdict }
}

// The end of the input, whose last line is closed or is not, or of what is read of it.
fn ended(r: Reader, p: Input, ns: &[u32], bs: &[u32]) -> Answered
    ensures { EndedAs r ns.now bs.now p result }
{
    Answered {
        input: p,
        verdict: by_line::read_end(!input::cut_off(p), r, ns, bs),
    }
}

// The answer.
fn answer<S: Source>(
    from: &mut S,
    reads: bool,
    room: &mut [u8],
    ns: &mut [u32],
    bs: &mut [u32],
) -> Answered
    requires { (2176 ≤ length ns.old) × (13200 ≤ length bs.old) }
    ensures { Verifies reads room.old result }
{
    let t = read(from, reads, room, ns, bs);
    if input::has_long(t.input) {
        let g = long_gives(t.reader, t.input, ns, bs);
        return long_line(from, g, t.input, room);
    }
    ended(t.reader, t.input, ns, bs)
}

// The text of an answer.
#[tactic(auto, unfolding(crate::specs::Verifies::verdict_text))]
fn print(page: &mut Page<'_>, v: Verdict)
    ensures { Appends (verdict_text v) page.old page.new }
{
    match v {
        Verdict::Same => page.bytes(b"same\n"),
        Verdict::Differs(n) => page.key_line(b"line=", n),
        Verdict::Refusal(n) => page.refusal(n),
    }
}

// What is printed for an input: standard input if `reads`, else the bytes of the room.
fn text<S: Source>(
    from: &mut S,
    reads: bool,
    room: &mut [u8],
    ns: &mut [u32],
    bs: &mut [u32],
    out: &mut [u8],
) -> Text
    requires { (2176 ≤ length ns.old) × (13200 ≤ length bs.old) × (32 ≤ length out.old) }
    ensures prints { Prints verify_output reads room.old result.input (take result.len out.new) }
    ensures len_in_bounds { result.len ≤ length out.new }
{
    let a = answer(from, reads, room, ns, bs);
    let mut page = Page::new(out);
    print(&mut page, a.verdict);
    Text {
        input: a.input,
        len: page.printed(),
    }
}

// The program: its exit status.
pub fn yardverify<S: Source>(from: &mut S) -> i32
    ensures { Ran verify_output result }
{
    let mut ns = session_pools::node_words();
    let mut bs = session_pools::bucket_words();
    let mut room = input::room();
    let mut out = [0u8; 32];
    let t = text(from, true, &mut room, &mut ns, &mut bs, &mut out);
    stdio::output::exit(b"verify", t, &out)
}
