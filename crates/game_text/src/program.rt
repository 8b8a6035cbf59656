// yardgame: over standard input a session whose last line is `game=N`; over standard output whether the lanes can force task 0's insert
// through within N of their turns, and by which first move. It holds one read of the input, one line, and the two pools.
ghost use Rattle.std.specs.Prelude.{◌≤◌, not, eqb, length, take};
ghost use Rattle.stdio.specs.Runs.{Prints, Ran};
ghost use Rattle.game.specs.Text.{game_answer};
ghost use Rattle.game_text.specs.LinesAnswer.{answered};
ghost use Rattle.game_text.specs.Reading.{Place, place};
ghost use Rattle.game_text.specs.Program.{taking, game_takes, game_decides, game_outside, answered_short};

use crate::Standing;
use line_readers::LineReader;
use stdio::input::Input;
use stdio::output::Text;
use stdio::source::Source;
use stdio::{input, output};

impl LineReader for Standing {
    ghost Stands = { Place };

    ghost stands = { place };

    ghost answer = { answered };

    ghost next = { taking };

    ghost decides = { λ t. not (eqb t.refused 0) };

    ghost most = { 28 };

    fn take_line(self, ns: &mut [u32], bs: &mut [u32], line: &[u8]) -> Standing {
        crate::take_line(self, ns, bs, line)
    }

    fn is_decided(self) -> bool {
        self.refused != 0
    }

    fn finish(self, p: Input, ns: &mut [u32], bs: &mut [u32], out: &mut [u8]) -> usize {
        let closed = !input::cut_off(p);
        crate::ending::finish(self, closed, ns, bs, out)
    }

    ghost takes = { game_takes };

    ghost decided = { λ t ns bs e ls. game_decides (place t ns bs) e ls };

    ghost outside = { game_outside };

    ghost short = { answered_short };
}

// What is printed for an input: standard input if `reads`, else the bytes of the room. One line of at most 28 bytes (`answer_short`). Reads until the
// input ends, or a refusal fixes the answer. A game's line does not: any line that follows it is outside the grammar.
fn text<S: Source>(
    from: &mut S,
    reads: bool,
    room: &mut [u8],
    ns: &mut [u32],
    bs: &mut [u32],
    out: &mut [u8],
) -> Text
    requires { (2176 ≤ length ns.old) × (13200 ≤ length bs.old) × (28 ≤ length out.old) }
    ensures prints { Prints game_answer reads room.old result.input (take result.len out.new) }
    ensures len_in_bounds { result.len ≤ length out.new }
{
    let begin = crate::new_standing();
    line_readers::text(from, reads, begin, room, ns, bs, out)
}

// The program: its exit status.
pub fn yardgame<S: Source>(from: &mut S) -> i32
    ensures { Ran game_answer result }
{
    let mut room = input::room();
    let mut ns = session_pools::node_words();
    let mut bs = session_pools::bucket_words();
    let mut out = [0u8; 28];
    let t = text(from, true, &mut room, &mut ns, &mut bs, &mut out);
    output::exit(b"game", t, &out)
}
