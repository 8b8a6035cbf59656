// The event lines, each a start or a step, and the final listing. `ok` says whether memory is sound, so that no event scans it.
ghost use Rattle.std.specs.Prelude.{◌≡◌, List, ℕ};
ghost use Rattle.spec.specs.Sound.{sound};
ghost use Rattle.session.specs.Grammar.{closed_line, parse_event_line};
ghost use Rattle.session_bytes.specs.Pages.{Appends};
ghost use Rattle.spec.specs.Entries.{start as start_of, step as step_of};
ghost use Rattle.session_state.specs.Handling.{prints_last, session_machine, reply_effect, event_effect, final_output, SessionHandled, LineHandled};

use session::EventLine;
use session_bytes::Page;
use session_state::{Handled, Phase, Session};
use spec::Call;

// Starts a call for a task, and prints the answer.
fn start_task(ok: bool, s: Session, k: u32, call: Call, tag: u32, out: &mut [u8]) -> Handled
    ensures { (ns bs : List ℕ) → ok ≡ sound (session_machine s ns bs)
        → LineHandled (reply_effect k (start_of (session_machine s ns bs) k call tag) s ns bs) result ns bs out.old out.new }
{
    let d = session_machine::start(ok, s.state, k, call, tag);
    let mut page = Page::new(out);
    session_print::output(&mut page, k, d.out);
    session_state::after_line(Phase::Events, s.header, d.state, page.printed())
}

// Steps a task by one line of Figure 2, and prints the answer.
fn step_task(
    ok: bool,
    s: Session,
    k: u32,
    ns: &mut [u32],
    bs: &mut [u32],
    out: &mut [u8],
) -> Handled
    requires { ok ≡ sound (session_machine s ns.old bs.old) }
    ensures { LineHandled (reply_effect k (step_of (session_machine s ns.old bs.old) k) s ns.old bs.old)
        result ns.new bs.new out.old out.new }
{
    let d = session_machine::step(ok, s.state, s.header, k, ns, bs);
    let mut page = Page::new(out);
    session_print::output(&mut page, k, d.out);
    session_state::after_line(Phase::Events, s.header, d.state, page.printed())
}

pub fn event_line(
    ok: bool,
    s: Session,
    ns: &mut [u32],
    bs: &mut [u32],
    line: &[u8],
    out: &mut [u8],
) -> Handled
    requires { ok ≡ sound (session_machine s ns.old bs.old) }
    ensures { LineHandled (event_effect (parse_event_line (closed_line line.now)) s ns.old bs.old) result
        ns.new bs.new out.old out.new }
{
    match session_parse::event_line(line) {
        Some(EventLine::Start(k, call, tag)) => start_task(ok, s, k, call, tag, out),
        Some(EventLine::Step(k)) => step_task(ok, s, k, ns, bs, out),
        None => session_state::stop(s, 10, out),
    }
}

// Prints the final listing.
fn list_tags(s: Session, ns: &[u32], bs: &[u32], page: &mut Page<'_>)
    ensures { Appends (final_output s ns.now bs.now) page.old page.new }
{
    let a = session_pools::node_extent(s.header.nodes, ns.len());
    let b = session_pools::bucket_extent(s.header.buckets, bs.len());
    let size = session_pools::node_size(&ns[..a], s.state.head);
    let mut w = [0u32; 64];
    match queries::list(s.state, &ns[..a], &bs[..b], &mut w) {
        Ok(n) => session_print::listing(page, size, &w[..n as usize]),
        Err(why) => page.refusal(why.number()),
    }
}

// Prints the final listing, after which nothing more is printed.
pub fn listing(s: Session, ns: &[u32], bs: &[u32], out: &mut [u8]) -> Handled
    ensures { SessionHandled (prints_last s (final_output s ns.now bs.now)) result out.old out.new }
{
    let mut page = Page::new(out);
    list_tags(s, ns, bs, &mut page);
    Handled {
        session: Session {
            phase: Phase::Stopped,
            ..s
        },
        printed: page.printed(),
    }
}
