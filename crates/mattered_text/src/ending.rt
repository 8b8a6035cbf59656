// What is said at the end of the input, one line: the step that mattered, or a refusal. The machine is opened here, over pools that are large enough
// for any session.
ghost use Rattle.std.specs.Prelude.{◌≡◌, ◌≤◌, length};
ghost use Rattle.spec.specs.Numbers.{opening_number};
ghost use Rattle.session.specs.Buffer.{buffer, append};
ghost use Rattle.session_bytes.specs.Pages.{Appends};
ghost use Rattle.session.specs.Transcript.{session_opening};
ghost use Rattle.schedule_events.specs.Events.{events_of};
ghost use Rattle.mattered.specs.Text.{verdict_line};
ghost use Rattle.mattered_text.specs.Reading.{place, header_complete, opened_says, said_at_end};

use mattered::Verdict;
use mattered_standing::Standing;
use session::Header;
use session_bytes::Page;
use session_state::Phase;
use spec::Refusal;

// Whether an input may end where it stands so.
#[tactic(auto, unfolding(crate::specs::Reading::header_complete))]
fn header_complete(phase: Phase) -> bool
    ensures { result ≡ header_complete phase }
{
    match phase {
        Phase::Due(due) => session_parse::optional(due),
        Phase::Events => true,
        Phase::Stopped => false,
    }
}

// The refusal of the opening. Writes nothing.
pub fn header_refusal(h: Header) -> Option<Refusal>
    ensures { opening_number result ≡ (session_opening h).refusal }
{
    let nodes = session_pools::node_extent(h.nodes, 2176);
    let buckets = session_pools::bucket_extent(h.buckets, 13200);
    opening::refusal(h.config, nodes, buckets)
}

// After a complete header, with n events: the opening's own number; else 10 if a line was outside the grammar; else what the events say.
fn judge(
    h: Header,
    outside: bool,
    n: usize,
    ns: &mut [u32],
    bs: &mut [u32],
    events: &[u32],
) -> Verdict
    requires { (2176 ≤ length ns.old) × (13200 ≤ length bs.old) }
    ensures { result ≡ opened_says (session_opening h) outside (events_of n events.now) }
{
    if outside {
        return match header_refusal(h) {
            None => Verdict::Refused(10),
            Some(why) => Verdict::Refused(why.number()),
        };
    }
    let a = session_pools::node_extent(h.nodes, ns.len());
    let b = session_pools::bucket_extent(h.buckets, bs.len());
    mattered_run::earliest(h.config, &mut ns[..a], &mut bs[..b], events, n)
}

// What is said of an input whose last line is closed or is not.
pub fn verdict(t: Standing, closed: bool, events: &[u32]) -> Verdict
    ensures { result ≡ said_at_end closed (place t events.now) }
{
    if !header_complete(t.phase) {
        return Verdict::Refused(10);
    }
    let mut ns = session_pools::node_words();
    let mut bs = session_pools::bucket_words();
    judge(
        t.header,
        !closed || t.outside,
        t.count,
        &mut ns,
        &mut bs,
        events,
    )
}

#[tactic(auto, unfolding(mattered::specs::Text::verdict_line))]
fn print_line(page: &mut Page<'_>, v: Verdict)
    ensures { Appends (verdict_line v) page.old page.new }
{
    match v {
        Verdict::Place(n) => page.key_line(b"event=", u64::from(n)),
        Verdict::NoStep => page.bytes(b"none\n"),
        Verdict::Refused(n) => page.refusal(n),
    }
}

// Prints it from the buffer's first byte on, and gives its length.
pub fn print(out: &mut [u8], v: Verdict) -> usize
    ensures { buffer out.new result ≡ append (verdict_line v) (buffer out.old 0) }
{
    let mut page = Page::new(out);
    print_line(&mut page, v);
    page.printed()
}
