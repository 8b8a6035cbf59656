// What is printed at the end of the input, one line: the answer of the game that is asked for, or a refusal.
ghost use Rattle.std.specs.Prelude.{◌≡◌};
ghost use Rattle.session.specs.Buffer.{buffer, append};
ghost use Rattle.session_bytes.specs.Pages.{Appends};
ghost use Rattle.session_state.specs.Handling.{session_machine};
ghost use Rattle.game.specs.Game.{verdict};
ghost use Rattle.game.specs.Text.{move_word, verdict_line};
ghost use Rattle.game_text.specs.Reading.{place, asked_at_end, end_refusal, ends_as, EndsAt};

use crate::Standing;
use game::{LanesMove, Verdict};
use session_bytes::Page;
use session_state::{Phase, Session};

// A winning first move.
#[tactic(auto, unfolding(game::specs::Text::move_word))]
fn move_word(page: &mut Page<'_>, m: LanesMove)
    ensures { Appends (move_word m) page.old page.new }
{
    match m {
        LanesMove::StepTask0 => page.bytes(b"lanes=0"),
        LanesMove::StepTask1 => page.bytes(b"lanes=1"),
        LanesMove::LanesPass => page.bytes(b"lanes=pass"),
    }
}

#[tactic(auto, unfolding(game::specs::Text::verdict_line))]
fn print(page: &mut Page<'_>, v: Verdict)
    ensures { Appends (verdict_line v) page.old page.new }
{
    match v {
        Verdict::LanesWin(m) => {
            move_word(page, m);
            page.byte(b'\n');
        }
        Verdict::OfficeHolds => page.bytes(b"office\n"),
        Verdict::Refused(n) => page.refusal(n),
    }
}

// Plays from where the session stands, within n turns of the lanes. The pools hold afterwards what they held before.
fn play(s: Session, n: u32, ns: &mut [u32], bs: &mut [u32], out: &mut [u8]) -> usize
    ensures { (buffer out.new result ≡ append (verdict_line (verdict n (session_machine s ns.old bs.old)))
        (buffer out.old 0))
        × (ns.new ≡ ns.old) × (bs.new ≡ bs.old) }
{
    let a = session_pools::node_extent(s.header.nodes, ns.len());
    let b = session_pools::bucket_extent(s.header.buckets, bs.len());
    let v = play::game(s.state, n, &mut ns[..a], &mut bs[..b]);
    let mut page = Page::new(out);
    print(&mut page, v);
    page.printed()
}

// The game to be played, where the input's last line is closed and nothing is refused.
#[tactic(auto, unfolding(crate::specs::Reading::asked_at_end))]
fn asked_at_end(t: Standing, closed: bool) -> Option<u32>
    ensures { result ≡ asked_at_end closed t }
{
    if closed && t.refused == 0 {
        t.asked
    } else {
        None
    }
}

// The number with which an input without a game, or with a last line that is not closed, is refused. Where the opening is still due it is only
// judged: a refusal keeps every word.
fn end_refusal(t: Standing, ns: &[u32], bs: &[u32]) -> u32
    ensures { result ≡ end_refusal (place t ns.now bs.now) }
{
    if t.refused != 0 {
        return t.refused;
    }
    match t.session.phase {
        Phase::Due(due) => {
            if session_parse::optional(due) {
                if let Some(why) = session_machine::judge_opening(t.session.header, ns, bs) {
                    return why.number();
                }
            }
            10
        }
        Phase::Events | Phase::Stopped => 10,
    }
}

// The end of an input whose last line is closed or is not. The pools hold afterwards what they held before.
pub fn finish(t: Standing, closed: bool, ns: &mut [u32], bs: &mut [u32], out: &mut [u8]) -> usize
    ensures { EndsAt (ends_as (asked_at_end closed t) (place t ns.old bs.old)) result ns.new bs.new
        out.old out.new }
{
    match asked_at_end(t, closed) {
        Some(n) => play(t.session, n, ns, bs, out),
        None => {
            let why = end_refusal(t, ns, bs);
            let mut page = Page::new(out);
            page.refusal(why);
            page.printed()
        }
    }
}
