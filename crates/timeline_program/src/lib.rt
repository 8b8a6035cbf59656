// yardtimeline: a session as rows (timeline), over standard input or bytes in memory: `text` gives what is printed, `yardtimeline` is the whole program as a
// function that gives the exit status. In memory: one read of the input, one line, what that read prints, and the two pools.
#![tactic(auto)]

ghost use Rattle.std.specs.Prelude.{◌≡◌, ⊤, ◌+◌, ◌*◌, ◌≤◌, length, take};
ghost use Rattle.session.specs.OutputLengths.{longest_end};
ghost use Rattle.session_state.specs.Handling.{has_stopped};
ghost use Rattle.stdio.specs.Runs.{Prints, Ran};
ghost use Rattle.timeline.specs.Lengths.{longest_rows};
ghost use Rattle.timeline_program.specs.Running.{Running, running, timeline_output, timeline_over, timeline_transcript, next, prints};
ghost use Rattle.timeline_program.specs.Running.{timeline_lines, timeline_outside, stopped_decides};
ghost use Rattle.timeline_program.specs.Room.{line_spends, some_due, end_spends};

use line_printers::{LinePrinter, Printed};
use stdio::input;
use stdio::input::Input;
use stdio::output::Text;
use stdio::source::Source;
use timeline::Timeline;

// A timeline as a program that prints as it goes.
#[derive(Clone, Copy)]
struct Reading {
    timeline: Timeline,
}

impl LinePrinter for Reading {
    ghost Stands = { Running };

    ghost stands = { λ r ns bs. running r.timeline ns bs };

    ghost prints_on = { timeline_output };

    ghost next = { next };

    ghost prints = { prints };

    ghost decides = { λ r. has_stopped r.timeline.session.phase };

    ghost knows = { λ x. ⊤ };

    ghost each = { longest_rows };

    ghost last = { longest_end };

    ghost once = { λ x. longest_end };

    fn take_line(
        self,
        ns: &mut [u32],
        bs: &mut [u32],
        line: &[u8],
        out: &mut [u8],
    ) -> Printed<Reading> {
        let t = timeline::take_line(self.timeline, ns, bs, line, out);
        let state = Reading {
            timeline: t.timeline,
        };
        Printed {
            state,
            printed: t.printed,
        }
    }

    fn is_decided(self) -> bool {
        session_state::has_stopped(self.timeline.session.phase)
    }

    fn finish(self, p: Input, ns: &mut [u32], bs: &mut [u32], out: &mut [u8]) -> usize {
        let closed = !input::cut_off(p);
        timeline::finish(self.timeline, closed, ns, bs, out)
    }

    ghost lines = { timeline_lines };

    ghost known = { λ x l k. k };

    ghost spends = { λ x l k. line_spends x l };

    ghost few = { some_due };

    ghost ends = { λ x p k. end_spends x p };

    ghost decided = { λ r ns bs e ls. stopped_decides (running r.timeline ns bs) e ls };

    ghost outside = { timeline_outside };
}

// What is printed for an input: standard input if `reads`, else the bytes of the room.
fn text<S: Source>(
    from: &mut S,
    reads: bool,
    room: &mut [u8],
    ns: &mut [u32],
    bs: &mut [u32],
    out: &mut [u8],
) -> Text
    requires { longest_rows * length room.old + longest_end ≤ length out.old }
    ensures prints { Prints (timeline_over ns.old bs.old) reads room.old result.input (take result.len out.new) }
    ensures len_in_bounds { result.len ≤ length out.new }
{
    let begin = Reading {
        timeline: timeline::new_timeline(),
    };
    line_printers::text(from, reads, begin, room, ns, bs, out)
}

// What is printed for one read of 1,024 bytes, and at the end.
fn output_room() -> [u8; 228980]
    ensures { longest_rows * 1024 + longest_end ≡ length result }
{
    [0; 228980]
}

// The program, and its exit status.
pub fn yardtimeline<S: Source>(from: &mut S) -> i32
    ensures { Ran timeline_transcript result }
{
    let mut room = input::room();
    let mut ns = session_pools::node_words();
    let mut bs = session_pools::bucket_words();
    let mut out = output_room();
    let t = text(from, true, &mut room, &mut ns, &mut bs, &mut out);
    stdio::output::exit(b"timeline", t, &out)
}
