// yardrecord: the recording of a session, its input on standard input and the recording on standard output; where nothing is recorded, the session's
// refusal. It holds one read of the input, what is written for that, and the two pools. `text` does the same over bytes in memory.
ghost use Rattle.std.specs.Prelude.{◌≡◌, true, ◌+◌, ◌*◌, ◌≤◌, length, take};
ghost use Rattle.session_state.specs.Handling.{has_stopped};
ghost use Rattle.stdio.specs.Runs.{Prints};
ghost use Rattle.recording.specs.Recorder.{recorder_output};
ghost use Rattle.recorder.specs.LentRecorder.{Lent, lent, recorded_from, take_line, line_prints};
ghost use Rattle.recorder.specs.LineRecorder.{recorder_decides, recorder_fixes};
ghost use Rattle.recorder.specs.OutputBounds.{longest_pair, longest_last, still_due};
ghost use Rattle.recorder.specs.Runs.{Knows, prints_lines, line_keeps, line_spends, due_few, end_spends, RanRecorder};

use crate::Recorder;
use line_printers::{LinePrinter, Printed};
use stdio::input::Input;
use stdio::output::Text;
use stdio::source::Source;
use stdio::{input, output};

// A recorder as a program that prints as it goes. Once the session has stopped nothing more is written, whatever follows.
impl LinePrinter for Recorder {
    ghost Stands = { Lent };

    ghost stands = { lent };

    ghost prints_on = { recorded_from };

    ghost next = { take_line };

    ghost prints = { line_prints };

    ghost decides = { λ r. has_stopped r.session.phase };

    ghost knows = { Knows };

    ghost each = { longest_pair };

    ghost last = { longest_last };

    ghost once = { λ s. still_due s.recorder.session.phase };

    fn take_line(
        self,
        ns: &mut [u32],
        bs: &mut [u32],
        line: &[u8],
        out: &mut [u8],
    ) -> Printed<Recorder> {
        let kept = recorder_lines::kept_after(self.session.phase, self.kept, line);
        let t = crate::record_line(true, self.session, self.kept, ns, bs, line, out);
        Printed {
            state: Recorder {
                session: t.session,
                kept,
            },
            printed: t.printed,
        }
    }

    fn is_decided(self) -> bool {
        session_state::has_stopped(self.session.phase)
    }

    // The last line is left out if it is too long or not closed: to the listing any such line is as the end.
    fn finish(self, _p: Input, ns: &mut [u32], bs: &mut [u32], out: &mut [u8]) -> usize {
        let long = partial_line::too_long();
        crate::record_line(true, self.session, self.kept, ns, bs, &long, out).printed
    }

    ghost lines = { prints_lines };

    ghost known = { line_keeps };

    ghost spends = { line_spends };

    ghost few = { due_few };

    ghost ends = { end_spends };

    ghost decided = { λ r ns bs e ls. recorder_decides (lent r ns bs) e ls };

    ghost outside = { recorder_fixes };
}

// What is written for an input: standard input if `reads`, else the bytes of the room. The room for the output holds all that one read can have
// written, and the end.
fn text<S: Source>(
    from: &mut S,
    reads: bool,
    room: &mut [u8],
    ns: &mut [u32],
    bs: &mut [u32],
    out: &mut [u8],
) -> Text
    requires { (2176 ≤ length ns.old) × (13200 ≤ length bs.old) × (longest_pair * length room.old + longest_last ≤ length out.old) }
    ensures prints { Prints recorder_output reads room.old result.input (take result.len out.new) }
    ensures len_in_bounds { result.len ≤ length out.new }
{
    let begin = crate::new_recorder();
    line_printers::text(from, reads, begin, room, ns, bs, out)
}

// What is written for one read, and for the end of the input.
fn output_room() -> [u8; 118552]
    ensures { longest_pair * 1024 + longest_last ≡ length result }
{
    [0; 118552]
}

// The program, and its exit status. A recording from which a line was left out counts as refused, and standard error has that line.
pub fn yardrecord<S: Source>(from: &mut S) -> i32
    ensures { RanRecorder result }
{
    let mut ns = session_pools::node_words();
    let mut bs = session_pools::bucket_words();
    let mut room = input::room();
    let mut out = output_room();
    let t = text(from, true, &mut room, &mut ns, &mut bs, &mut out);
    let o = output::answer(b"record", t.input, &out[..t.len]);
    output::status(output::left_out(b"record", t.input, o))
}
