// The loop of a program over the lines of its input, for any program that prints as it goes: what a line prints is written before the next read. A program
// says where it stands after a closed line, what it prints for it, whether nothing more is printed, and what it prints at the end; the loop and its proof
// stand here once. A program that prints nothing before the end is one of line_readers.
#![tactic(auto)]

ghost use Rattle.std.specs.Prelude.{◌≡◌, ◌+◌, ◌*◌, ◌≤◌, true, Bool, ℕ, List, [], length, take};
ghost use Rattle.session.specs.Buffer.{buffer, append};
ghost use Rattle.session.specs.Grammar.{InputLine, input_lines};
ghost use Rattle.stdio.specs.declared.input.Input.{Input};
ghost use Rattle.stdio.specs.Inputs.{is_line};
ghost use Rattle.stdio.specs.Readers.{OutsideFixes, last_lines};
ghost use Rattle.stdio.specs.Runs.{Prints};
ghost use Rattle.stdio.specs.Streams.{PrintsLines, printed_by, Took, Streamed};

use stdio::input::Input;
use stdio::output::Text;
use stdio::source::Source;

// Where a program stands, and how many bytes of the buffer are written.
#[derive(Clone, Copy)]
pub struct Printed<R> {
    pub state: R,
    pub printed: usize,
}

// Where such a program stands in its input. It is lent two slices of words, of which it takes what it needs: the two pools of a machine.
pub trait LinePrinter: Copy {
    // where it stands, with what the lent slices hold
    ghost Stands: { Type 0 };

    ghost stands: { Self → List ℕ → List ℕ → Stands };

    // what is printed if these lines follow; where it stands after the bytes of a closed line, and what is printed for it; whether nothing more is printed
    ghost prints_on: { Stands → List InputLine → List ℕ };

    ghost next: { Stands → List ℕ → Stands };

    ghost prints: { Stands → List ℕ → List ℕ };

    ghost decides: { Self → Bool };

    // what is known of it and of the lent slices, and a line keeps
    ghost knows: { Stands → Type 0 };

    // a line prints at most `each` bytes, besides those of `once`, which may still come once, with the end's, and are at most `last`
    ghost each: { ℕ };

    ghost last: { ℕ };

    ghost once: { Stands → ℕ };

    // A closed line, without its closing byte 10. What is printed for it is written from the buffer's first byte on, as far as there is room.
    fn take_line(
        self,
        first: &mut [u32],
        second: &mut [u32],
        line: &[u8],
        out: &mut [u8],
    ) -> Printed<Self>
        requires { knows (stands self first.old second.old) }
        ensures next { stands result.state first.new second.new ≡ next (stands self first.old second.old) line.now }
        ensures prints { buffer out.new result.printed ≡ append (prints (stands self first.old second.old) line.now) (buffer out.old 0) };

    // Whether nothing more is printed, whatever follows.
    fn is_decided(self) -> bool
        ensures { result ≡ decides self };

    // The end of the input. What is printed for it is written from the buffer's first byte on, as far as there is room, and its length given.
    fn finish(self, p: Input, first: &mut [u32], second: &mut [u32], out: &mut [u8]) -> usize
        requires { knows (stands self first.old second.old) }
        ensures { buffer out.new result ≡ append (prints_on (stands self first.old second.old) (last_lines p)) (buffer out.old 0) };

    ghost lines: { PrintsLines prints_on next prints };

    ghost known: { (x : Stands) (l : List ℕ) → knows x → knows (next x l) };

    ghost spends: { (x : Stands) (l : List ℕ) → knows x → length (prints x l) + once (next x l) ≤ once x + each };

    ghost few: { (x : Stands) → once x ≤ last };

    ghost ends: { (x : Stands) (p : Input) → knows x → length (prints_on x (last_lines p)) ≤ once x };

    ghost decided: { (r : Self) (first second : List ℕ) → decides r ≡ true → (ls : List InputLine)
        → prints_on (stands r first second) ls ≡ prints_on (stands r first second) [] };

    ghost outside: { OutsideFixes prints_on };
}

// A program and its input, of which no more is to be asked for, and how many bytes of what was printed are not written yet.
#[derive(Clone, Copy)]
pub struct Progress<R> {
    pub state: R,
    pub input: Input,
    pub due: usize,
}

// The line at hand, if a call gave one. What it prints is written to the buffer from `due` on, and `printed` counts both.
fn take_given<R: LinePrinter>(
    r: R,
    due: usize,
    q: Input,
    first: &mut [u32],
    second: &mut [u32],
    out: &mut [u8],
) -> Printed<R>
    requires known { R.knows (R.stands r first.old second.old) }
    requires room { due + length (printed_by R.prints_on R.next R.prints (R.stands r first.old second.old) q) ≤ length out.old }
    ensures { Took R.prints_on R.next R.prints (R.stands r first.old second.old) due q out.old
        (R.stands result.state first.new second.new) result.printed out.new }
{
    if stdio::input::has_line(q) {
        let t = r.take_line(first, second, q.line.as_bytes(), &mut out[due..]);
        Printed {
            printed: due + t.printed,
            ..t
        }
    } else {
        Printed {
            state: r,
            printed: due,
        }
    }
}

// Reads until the input ends, nothing more is printed, or a read or a write fails. What is printed before a read is written before it, or where it is not to
// be shown dropped; the rest is in the buffer.
pub fn read<S: Source, R: LinePrinter>(
    from: &mut S,
    reads: bool,
    shown: bool,
    begin: R,
    room: &mut [u8],
    first: &mut [u32],
    second: &mut [u32],
    out: &mut [u8],
) -> Progress<R>
    requires known { R.knows (R.stands begin first.old second.old) }
    requires room { R.each * length room.old + R.last ≤ length out.old }
    ensures streamed { Streamed R.prints_on R.next R.prints R.each R.last (R.once (R.stands result.state first.new second.new)) reads room.old
        (R.stands begin first.old second.old) result.input room.new (R.stands result.state first.new second.new) result.due out.new }
    ensures known { R.knows (R.stands result.state first.new second.new) × (result.input.left ≤ 0) × (length result.input.line.bytes ≡ 41) }
{
    let mut p = stdio::input::begin(reads, room.len());
    let mut r = begin;
    let mut due = 0;
    while 0 < p.left {
        let q = stdio::input::next_line(from, p, room);
        let t = take_given(r, due, q, first, second, out);
        r = t.state;
        let d = stdio::input::settle(q, r.is_decided());
        let w = stdio::output::pass_on(d, shown, out, t.printed);
        due = w.due;
        p = w.input;
    }
    Progress {
        state: r,
        input: p,
        due,
    }
}

// What is printed for an input: standard input if `reads`, else the bytes of the room.
pub fn text<S: Source, R: LinePrinter>(
    from: &mut S,
    reads: bool,
    begin: R,
    room: &mut [u8],
    first: &mut [u32],
    second: &mut [u32],
    out: &mut [u8],
) -> Text
    requires known { R.knows (R.stands begin first.old second.old) }
    requires room { R.each * length room.old + R.last ≤ length out.old }
    ensures prints { Prints (λ xs. R.prints_on (R.stands begin first.old second.old) (input_lines xs)) reads room.old result.input (take result.len out.new) }
    ensures len_in_bounds { result.len ≤ length out.new }
{
    let k = read(from, reads, true, begin, room, first, second, out);
    let n = k.state.finish(k.input, first, second, &mut out[k.due..]);
    Text {
        input: k.input,
        len: k.due + n,
    }
}
