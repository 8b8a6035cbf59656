// A session over an input, standard input or bytes in memory: `text` gives what is printed, `yardrun` is the whole program as a function that gives the exit
// status, and `read` serves any program that reads a session. In memory: one read of the input, one line, what that read prints, and the two pools.
#![tactic(auto)]

ghost use Rattle.std.specs.Prelude.{◌≡◌, true, ◌+◌, ◌*◌, ◌≤◌, length, take};
ghost use Rattle.session.specs.OutputLengths.{longest_line, longest_end};
ghost use Rattle.session.specs.Transcript.{transcript};
ghost use Rattle.session_state.specs.Handling.{has_stopped};
ghost use Rattle.session_lines.specs.KnownMemory.{KnownIn};
ghost use Rattle.stdio.specs.Runs.{Prints, Ran};
ghost use Rattle.session_run.specs.Running.{Running, running, begin, prints_on, next, prints, Reads};
ghost use Rattle.session_run.specs.Running.{session_lines as lines_print, session_outside, stopped_decides};
ghost use Rattle.session_run.specs.Knowing.{Knows, line_keeps, line_spends, some_due, end_spends};

use line_printers::{LinePrinter, Printed};
use session_state::Session;
use stdio::input::Input;
use stdio::output::Text;
use stdio::source::Source;

// A session and its input, of which no more is to be asked for, and how many bytes of what was printed are not written yet.
#[derive(Clone, Copy)]
pub struct Progress {
    pub session: Session,
    pub input: Input,
    pub due: usize,
}

// What is printed for one read of 1,024 bytes, and at the end.
fn output_room() -> [u8; 76404]
    ensures { longest_line * 1024 + longest_end ≡ length result }
{
    [0; 76404]
}

// A session as a program that prints as it goes. Memory was sound when it was opened, and stays so: no line scans it.
#[derive(Clone, Copy)]
struct Reading {
    session: Session,
}

impl LinePrinter for Reading {
    ghost Stands = { Running };

    ghost stands = { λ r ns bs. running r.session ns bs };

    ghost prints_on = { prints_on };

    ghost next = { next };

    ghost prints = { prints };

    ghost decides = { λ r. has_stopped r.session.phase };

    ghost knows = { Knows };

    ghost each = { longest_line };

    ghost last = { longest_end };

    ghost once = { λ x. longest_end };

    fn take_line(
        self,
        ns: &mut [u32],
        bs: &mut [u32],
        line: &[u8],
        out: &mut [u8],
    ) -> Printed<Reading> {
        let t = session_lines::known_line(true, self.session, ns, bs, line, out);
        let state = Reading { session: t.session };
        Printed {
            state,
            printed: t.printed,
        }
    }

    fn is_decided(self) -> bool {
        session_state::has_stopped(self.session.phase)
    }

    // A last line that is too long or not closed is outside the grammar, whatever its bytes are.
    fn finish(self, p: Input, ns: &mut [u32], bs: &mut [u32], out: &mut [u8]) -> usize {
        if stdio::input::cut_off(p) {
            let long = partial_line::too_long();
            session_lines::handle_line(self.session, ns, bs, &long, out).printed
        } else {
            session_lines::end_input(self.session, ns, bs, out).printed
        }
    }

    ghost lines = { lines_print };

    ghost known = { line_keeps };

    ghost spends = { line_spends };

    ghost few = { some_due };

    ghost ends = { end_spends };

    ghost decided = { λ r ns bs e ls. stopped_decides (running r.session ns bs) e ls };

    ghost outside = { session_outside };
}

// Reads until the input ends, the session has stopped, or a read or a write fails. What is printed before a read is written before it, or where it is
// not to be shown dropped; the rest is in the buffer.
pub fn read<S: Source>(
    from: &mut S,
    reads: bool,
    shown: bool,
    room: &mut [u8],
    ns: &mut [u32],
    bs: &mut [u32],
    out: &mut [u8],
) -> Progress
    requires { longest_line * length room.old + longest_end ≤ length out.old }
    ensures reads { Reads reads room.old (begin ns.old bs.old) result.input room.new
        (running result.session ns.new bs.new) result.due out.new }
    ensures known_in { KnownIn true result.session ns.new bs.new × (result.input.left ≤ 0) }
{
    let begin = Reading {
        session: session_state::new_session(),
    };
    let k = line_printers::read(from, reads, shown, begin, room, ns, bs, out);
    Progress {
        session: k.state.session,
        input: k.input,
        due: k.due,
    }
}

// What is printed for an input: standard input if `reads`, else the bytes of the room. The pools hold at least 64 nodes and 200 buckets, whatever their words
// are.
fn text<S: Source>(
    from: &mut S,
    reads: bool,
    room: &mut [u8],
    ns: &mut [u32],
    bs: &mut [u32],
    out: &mut [u8],
) -> Text
    requires { (longest_line * length room.old + longest_end ≤ length out.old) × (2176 ≤ length ns.old) × (13200 ≤ length bs.old) }
    ensures prints { Prints transcript reads room.old result.input (take result.len out.new) }
    ensures len_in_bounds { result.len ≤ length out.new }
{
    let begin = Reading {
        session: session_state::new_session(),
    };
    line_printers::text(from, reads, begin, room, ns, bs, out)
}

// The session program: standard input to its end, or as far as the session goes.
pub fn yardrun<S: Source>(from: &mut S) -> i32
    ensures { Ran transcript result }
{
    let mut room = stdio::input::room();
    let mut ns = session_pools::node_words();
    let mut bs = session_pools::bucket_words();
    let mut out = output_room();
    let t = text(from, true, &mut room, &mut ns, &mut bs, &mut out);
    stdio::output::exit(b"run", t, &out)
}
