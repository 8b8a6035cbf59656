// yardmattered: over standard input a session; over standard output the place, from 1, of its first step event without which the list of ended
// calls is another one, or `none`, or a refusal. It holds one read of the input, one line and the words of 256 events, and at the end two pools.
ghost use Rattle.std.specs.Prelude.{◌≡◌, ◌≤◌, length, take};
ghost use Rattle.stdio.specs.Runs.{Prints, Ran};
ghost use Rattle.mattered.specs.Text.{mattered_answer};
ghost use Rattle.mattered_text.specs.Reading.{Place, place};
ghost use Rattle.mattered_text.specs.Program.{says, taking, decided, mattered_takes, mattered_decides, mattered_outside, says_short};

use line_readers::LineReader;
use mattered_standing::Standing;
use session_state::Phase;
use stdio::input::Input;
use stdio::output::Text;
use stdio::source::Source;
use stdio::{input, output};

// Whether what is said at the end is fixed, whatever follows. It is not after 257 events: a line outside the grammar goes before their 15.
#[tactic(auto, unfolding(crate::specs::Program::phase_decides))]
fn decided(t: Standing) -> bool
    ensures { result ≡ decided t }
{
    match t.phase {
        Phase::Due(_) => false,
        Phase::Events => t.outside || crate::ending::header_refusal(t.header).is_some(),
        Phase::Stopped => true,
    }
}

// A standing as a reader of lines: the words of the events are the first of the slices that are lent to it.
#[derive(Clone, Copy)]
struct Reading {
    standing: Standing,
}

impl LineReader for Reading {
    ghost Stands = { Place };

    ghost stands = { λ r events second. place r.standing events };

    ghost answer = { says };

    ghost next = { taking };

    ghost decides = { λ r. decided r.standing };

    ghost most = { 28 };

    fn take_line(self, events: &mut [u32], _second: &mut [u32], line: &[u8]) -> Reading {
        Reading {
            standing: crate::take_line(self.standing, events, line),
        }
    }

    fn is_decided(self) -> bool {
        decided(self.standing)
    }

    fn finish(self, p: Input, events: &mut [u32], _second: &mut [u32], out: &mut [u8]) -> usize {
        let closed = !input::cut_off(p);
        let v = crate::ending::verdict(self.standing, closed, events);
        crate::ending::print(out, v)
    }

    ghost takes = { mattered_takes };

    ghost decided = { λ r events second e ls. mattered_decides (place r.standing events) e ls };

    ghost outside = { mattered_outside };

    ghost short = { says_short };
}

// What is printed for an input: standard input if `reads`, else the bytes of the room. One line of at most 28 bytes (`answer_short`). Reads until the
// input ends, or a line fixes the answer.
fn text<S: Source>(
    from: &mut S,
    reads: bool,
    room: &mut [u8],
    events: &mut [u32],
    out: &mut [u8],
) -> Text
    requires { (1024 ≤ length events.old) × (28 ≤ length out.old) }
    ensures prints { Prints mattered_answer reads room.old result.input (take result.len out.new) }
    ensures len_in_bounds { result.len ≤ length out.new }
{
    let begin = Reading {
        standing: mattered_standing::new_standing(),
    };
    line_readers::text(from, reads, begin, room, events, &mut [], out)
}

// The program: its exit status.
pub fn yardmattered<S: Source>(from: &mut S) -> i32
    ensures { Ran mattered_answer result }
{
    let mut room = input::room();
    // four words for each of 256 events
    let mut events = [0u32; 1024];
    let mut out = [0u8; 28];
    let t = text(from, true, &mut room, &mut events, &mut out);
    output::exit(b"mattered", t, &out)
}
