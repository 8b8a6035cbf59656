// yardplan: how many records so many tasks need, and what a list of calls comes to, over standard input and output. It holds one read of the input, one
// line, and 64 calls.
ghost use Rattle.std.specs.Prelude.{◌≤◌, length, take};
ghost use Rattle.stdio.specs.Runs.{Prints, Ran};
ghost use Rattle.plan_text.specs.Text.{plan_transcript};

use stdio::output::Text;
use stdio::source::Source;

// What is printed for an input: standard input if `reads`, else the bytes of the room. It has at most 3,448 bytes (`answer_bound`), and is printed once the
// input ends or a line is outside the grammar.
fn text<S: Source>(from: &mut S, reads: bool, room: &mut [u8], out: &mut [u8; 4096]) -> Text
    ensures prints { Prints plan_transcript reads room.old result.input (take result.len out.new) }
    ensures len_in_bounds { result.len ≤ length out.new }
{
    let begin = crate::reading::new_reading();
    line_readers::text(from, reads, begin, room, &mut [], &mut [], out)
}

// The whole program, and its exit status.
pub fn yardplan<S: Source>(from: &mut S) -> i32
    ensures { Ran plan_transcript result }
{
    let mut room = stdio::input::room();
    let mut out = io::buffer();
    let t = text(from, true, &mut room, &mut out);
    stdio::output::exit(b"plan", t, &out)
}
