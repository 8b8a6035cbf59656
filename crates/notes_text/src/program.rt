// yardnotes: two lanes' notes over standard input, their order over standard output. It holds one read of the input, one line, and six notes of each
// lane.
ghost use Rattle.std.specs.Prelude.{◌≤◌, length, take};
ghost use Rattle.stdio.specs.Runs.{Prints, Ran};
ghost use Rattle.notes.specs.Text.{notes_transcript};

use stdio::output::Text;
use stdio::source::Source;

// What is printed for an input: standard input if `reads`, else the bytes of the room. It has at most 744 bytes (`answer_bound`), and is printed once the
// input ends or a line is outside the grammar.
fn text<S: Source>(from: &mut S, reads: bool, room: &mut [u8], out: &mut [u8; 1024]) -> Text
    ensures prints { Prints notes_transcript reads room.old result.input (take result.len out.new) }
    ensures len_in_bounds { result.len ≤ length out.new }
{
    let begin = crate::reading::new_reading();
    line_readers::text(from, reads, begin, room, &mut [], &mut [], out)
}

// The whole program, and its exit status.
pub fn yardnotes<S: Source>(from: &mut S) -> i32
    ensures { Ran notes_transcript result }
{
    let mut room = stdio::input::room();
    let mut out = stdio::input::room();
    let t = text(from, true, &mut room, &mut out);
    stdio::output::exit(b"notes", t, &out)
}
