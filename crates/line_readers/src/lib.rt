// The loop of a program over the lines of its input, for any program that prints nothing before the end. A program says where it stands after a closed line,
// whether that fixed its answer, and what it prints at the end; the loop and its proof stand here once. A program that prints as it goes is one of
// line_printers.
#![tactic(auto)]

ghost use Rattle.std.specs.Prelude.{◌≡◌, ◌≤◌, true, Bool, ℕ, List, [], length, take};
ghost use Rattle.session.specs.Buffer.{buffer, append};
ghost use Rattle.session.specs.Grammar.{InputLine, input_lines};
ghost use Rattle.stdio.specs.declared.input.Input.{Input};
ghost use Rattle.stdio.specs.Readers.{TakesLines, OutsideFixes, after_call, last_lines};
ghost use Rattle.stdio.specs.Runs.{Prints};

use stdio::input::Input;
use stdio::output::Text;
use stdio::source::Source;

// Where such a program stands in its input. It is lent two slices of words, of which it takes what it needs: the two pools of a machine, the words of
// events, or none.
pub trait LineReader: Copy {
    // where it stands, with what the lent slices hold
    ghost Stands: { Type 0 };

    ghost stands: { Self → List ℕ → List ℕ → Stands };

    // what is printed if these lines follow; where it stands after the bytes of a closed line
    ghost answer: { Stands → List InputLine → List ℕ };

    ghost next: { Stands → List ℕ → Stands };

    // whether the answer is fixed; how many bytes it has at most
    ghost decides: { Self → Bool };

    ghost most: { ℕ };

    // A closed line, without its closing byte 10.
    fn take_line(self, first: &mut [u32], second: &mut [u32], line: &[u8]) -> Self
        ensures { stands result first.new second.new ≡ next (stands self first.old second.old) line.now };

    // Whether the answer is fixed, whatever follows.
    fn is_decided(self) -> bool
        ensures { result ≡ decides self };

    // The answer where no more is read: it is written from the buffer's first byte on, as far as there is room, and its length given.
    fn finish(self, p: Input, first: &mut [u32], second: &mut [u32], out: &mut [u8]) -> usize
        ensures { buffer out.new result ≡ append (answer (stands self first.old second.old) (last_lines p)) (buffer out.old 0) };

    ghost takes: { TakesLines answer next };

    ghost decided: { (r : Self) (first second : List ℕ) → decides r ≡ true → (ls : List InputLine)
        → answer (stands r first second) ls ≡ answer (stands r first second) [] };

    ghost outside: { OutsideFixes answer };

    ghost short: { (x : Stands) (p : Input) → length (answer x (last_lines p)) ≤ most };
}

// The line that a call for one gave, if it gave one.
fn take_given<R: LineReader>(r: R, q: Input, first: &mut [u32], second: &mut [u32]) -> R
    ensures { R.stands result first.new second.new ≡ after_call R.next (R.stands r first.old second.old) q }
{
    if stdio::input::has_line(q) {
        r.take_line(first, second, q.line.as_bytes())
    } else {
        r
    }
}

// What is printed for an input: standard input if `reads`, else the bytes of the room. It is printed once the input ends, or a line fixes the answer.
pub fn text<S: Source, R: LineReader>(
    from: &mut S,
    reads: bool,
    begin: R,
    room: &mut [u8],
    first: &mut [u32],
    second: &mut [u32],
    out: &mut [u8],
) -> Text
    requires { R.most ≤ length out.old }
    ensures prints { Prints (λ xs. R.answer (R.stands begin first.old second.old) (input_lines xs)) reads room.old result.input (take result.len out.new) }
    ensures len_in_bounds { result.len ≤ length out.new }
{
    let mut p = stdio::input::begin(reads, room.len());
    let mut r = begin;
    while 0 < p.left {
        let q = stdio::input::next_line(from, p, room);
        r = take_given(r, q, first, second);
        p = stdio::input::settle(q, r.is_decided());
    }
    let len = r.finish(p, first, second, out);
    Text { input: p, len }
}
