// The machine of a session between two lines, in the part of the lent pools that the header's numbers name: the opening, which ends the header; a start
// and a step where it is known whether memory is sound (known_memory), and the scan that says so.
#![tactic(auto)]

ghost use Rattle.std.specs.Prelude.{◌≡◌, List, ℕ};
ghost use Rattle.spec.specs.Numbers.{opening_number};
ghost use Rattle.spec.specs.Sound.{sound};
ghost use Rattle.spec.specs.Entries.{opening, start, step};
ghost use Rattle.session.specs.declared.Header.{Header};
ghost use Rattle.session.specs.Grammar.{closed_line};
ghost use Rattle.session.specs.Header.{header_step};
ghost use Rattle.session_pools.specs.PoolParts.{node_part, bucket_part};
ghost use Rattle.session_machine.specs.Parts.{part_machine, Replied};
ghost use Rattle.session_machine.specs.Stages.{opened_of, part_opening, reached, opened_stage, header_stage};

use lines::Stepped;
use opening::Opened;
use session::{Header, HeaderLine, HeaderStep};
use spec::{Call, Refusal, State};

// Where a session stands after a line where a header line was due: another one is due; the line completed the header, and the machine is open; the
// machine is open without the line, which stands in the place of a header line that may be left out and is to be read as an event's; the opening was
// refused with this number; or the header line is missing.
#[derive(Clone, Copy)]
pub enum Stage {
    NextDue(HeaderLine),
    OpenedBy,
    OpenedBefore,
    OpeningRefused(u32),
    Incomplete,
}

// That, with the header as far as it is read and the machine's state.
#[derive(Clone, Copy)]
pub struct Staged {
    pub stage: Stage,
    pub header: Header,
    pub state: State,
}

// Opens the machine with the header's numbers.
pub fn open(h: Header, ns: &mut [u32], bs: &mut [u32]) -> Opened
    ensures { opened_of result ns.new bs.new ≡ part_opening h ns.old bs.old }
{
    let a = session_pools::node_extent(h.nodes, ns.len());
    let b = session_pools::bucket_extent(h.buckets, bs.len());
    opening::open(h.config, &mut ns[..a], &mut bs[..b])
}

// The opening is only judged: its refusal, if it is refused. Writes nothing.
#[tactic(auto, using(crate::proofs::Laws::judged))]
pub fn judge_opening(h: Header, ns: &[u32], bs: &[u32]) -> Option<Refusal>
    ensures { opening_number result ≡ (opening h.config (node_part h ns.now) (bucket_part h bs.now)).refusal }
{
    let a = session_pools::node_extent(h.nodes, ns.len());
    let b = session_pools::bucket_extent(h.buckets, bs.len());
    opening::refusal(h.config, a, b)
}

// The machine is opened: this stage, or the opening's refusal.
fn open_stage(stage: Stage, header: Header, ns: &mut [u32], bs: &mut [u32]) -> Staged
    ensures { reached result ns.new bs.new ≡ opened_stage stage header (part_opening header ns.old bs.old) }
{
    let o = open(header, ns, bs);
    let state = o.state;
    match o.refusal {
        None => Staged {
            stage,
            header,
            state,
        },
        Some(why) => Staged {
            stage: Stage::OpeningRefused(why.number()),
            header,
            state,
        },
    }
}

// A closed line where a header line is due. The line that completes the header brings the opening about, and so does one that stands in the place of
// a header line that may be left out.
#[tactic(auto, unfolding(crate::specs::Stages::header_stage))]
pub fn header_line(
    due: HeaderLine,
    h: Header,
    m: State,
    ns: &mut [u32],
    bs: &mut [u32],
    line: &[u8],
) -> Staged
    ensures { reached result ns.new bs.new ≡ header_stage (header_step due h (closed_line line.now)) h m
        ns.old bs.old }
{
    match session_parse::header_line(due, h, line) {
        HeaderStep::Next(next, header) => Staged {
            stage: Stage::NextDue(next),
            header,
            state: m,
        },
        HeaderStep::Complete(header) => open_stage(Stage::OpenedBy, header, ns, bs),
        HeaderStep::Absent(header) => open_stage(Stage::OpenedBefore, header, ns, bs),
        HeaderStep::Missing => Staged {
            stage: Stage::Incomplete,
            header: h,
            state: m,
        },
    }
}

// Whether memory is sound, by a scan of it.
pub fn is_sound(m: State, h: Header, ns: &[u32], bs: &[u32]) -> bool
    ensures { result ≡ sound (part_machine m h ns.now bs.now) }
{
    let a = session_pools::node_extent(h.nodes, ns.len());
    let b = session_pools::bucket_extent(h.buckets, bs.len());
    soundness::check(m, 0, &ns[..a], &bs[..b]).is_some()
}

// Starts a call for task k. No word of a pool is read, so it is the start over any.
pub fn start(ok: bool, m: State, k: u32, call: Call, tag: u32) -> Stepped
    ensures { (h : Header) (ns bs : List ℕ) → ok ≡ sound (part_machine m h ns bs)
        → Replied (start (part_machine m h ns bs) k call tag) result h ns bs ns bs }
{
    known_memory::start(ok, m, k, call, tag)
}

// Steps task k by one line of Figure 2.
pub fn step(ok: bool, m: State, h: Header, k: u32, ns: &mut [u32], bs: &mut [u32]) -> Stepped
    requires { ok ≡ sound (part_machine m h ns.old bs.old) }
    ensures { Replied (step (part_machine m h ns.old bs.old) k) result h ns.old bs.old ns.new
        bs.new }
{
    let a = session_pools::node_extent(h.nodes, ns.len());
    let b = session_pools::bucket_extent(h.buckets, bs.len());
    known_memory::step(ok, m, k, &mut ns[..a], &mut bs[..b])
}
