// One line of a recording: a header line, an event run afresh and its output line, a line of the listing; and the end of the input.
ghost use Rattle.session.specs.Grammar.{closed_line};
ghost use Rattle.session.specs.Header.{header_step};
ghost use Rattle.session_bytes.specs.Pages.{Appends};
ghost use Rattle.spec.specs.Schedule.{starts, steps};
ghost use Rattle.std.specs.Prelude.{◌≡◌, List, ℕ, drop};
ghost use Rattle.spec.specs.Sound.{sound};
ghost use Rattle.session_machine.specs.Parts.{part_machine};
ghost use Rattle.reader.specs.KnownMemory.{KnownIn};
ghost use Rattle.recording.specs.Recording.{listing};
ghost use Rattle.recording.specs.Reader.{run_event, read_listed, listing_end};
ghost use Rattle.reader_state.specs.ListedLines.{first_bytes};
ghost use Rattle.reader_state.specs.Standing.{with_part, put_back, turn_line, header_line, read_line, read_end, ReadAs};

use reader_state::Reader;
use recording::{ReaderPhase, Verdict};
use session::{EventLine, HeaderLine};
use session_bytes::Page;
use session_machine::Stage;
use spec::Call;

// Starts a call for a task; its output line comes next.
fn start_task(ok: bool, r: Reader, k: u32, call: Call, tag: u32) -> Reader
    ensures { (ns bs : List ℕ) → ok ≡ sound (part_machine r.state r.header ns bs)
        → ReadAs (put_back (run_event (starts k call tag) (with_part r ns bs)) ns bs) result ns bs }
{
    let d = session_machine::start(ok, r.state, k, call, tag);
    Reader {
        phase: ReaderPhase::Printed(k, d.out),
        state: d.state,
        number: reader_state::next_number(r.number),
        ..r
    }
}

// Steps a task by one line of Figure 2; its output line comes next.
fn step_task(ok: bool, r: Reader, k: u32, ns: &mut [u32], bs: &mut [u32]) -> Reader
    requires { ok ≡ sound (part_machine r.state r.header ns.old bs.old) }
    ensures { ReadAs (put_back (run_event (steps k) (with_part r ns.old bs.old)) ns.old bs.old) result
        ns.new bs.new }
{
    let d = session_machine::step(ok, r.state, r.header, k, ns, bs);
    Reader {
        phase: ReaderPhase::Printed(k, d.out),
        state: d.state,
        number: reader_state::next_number(r.number),
        ..r
    }
}

// Prints the line at place k of the listing, made anew; nothing past its end.
fn print_listed(r: Reader, k: u32, ns: &[u32], bs: &[u32], page: &mut Page<'_>)
    ensures { Appends (first_bytes (drop k (listing (with_part r ns.now bs.now).machine))) page.old page.new }
{
    let a = session_pools::node_extent(r.header.nodes, ns.len());
    let b = session_pools::bucket_extent(r.header.buckets, bs.len());
    let size = session_pools::node_size(&ns[..a], r.state.head);
    let mut w = [0u32; 64];
    let listed = queries::list(r.state, &ns[..a], &bs[..b], &mut w);
    match listed {
        Ok(n) => { reader_state::comparing::print_listed(page, size, &w[..n as usize], k) }
        Err(why) => {
            if k == 0 {
                page.refusal(why.number());
            }
        }
    }
}

// The line at place k of the listing.
fn listed_line(r: Reader, k: u32, ns: &[u32], bs: &[u32], line: &[u8]) -> Reader
    ensures { ReadAs (put_back (read_listed k (with_part r ns.now bs.now) (closed_line line.now)) ns.now
        bs.now) result ns.now bs.now }
{
    let mut w = [0u8; 73];
    let mut page = Page::new(&mut w);
    print_listed(r, k, ns, bs, &mut page);
    reader_state::comparing::compare_listed(r, k, page.text(), line)
}

// The end of the input, where the line at place k of the listing comes next.
fn listed_end(r: Reader, k: u32, ns: &[u32], bs: &[u32]) -> Verdict
    ensures { result ≡ listing_end (drop k (listing (with_part r ns.now bs.now).machine)) }
{
    let mut w = [0u8; 73];
    let mut page = Page::new(&mut w);
    print_listed(r, k, ns, bs, &mut page);
    if page.printed() == 0 {
        Verdict::Same
    } else {
        Verdict::Refusal(12)
    }
}

// The line of an event, or the listing's first.
fn turn_line(ok: bool, r: Reader, ns: &mut [u32], bs: &mut [u32], line: &[u8]) -> Reader
    requires { ok ≡ sound (part_machine r.state r.header ns.old bs.old) }
    ensures { ReadAs (turn_line r ns.old bs.old (closed_line line.now)) result ns.new bs.new }
{
    if session_keys::starts_with(line, b"size=") {
        return listed_line(r, 0, ns, bs, line);
    }
    match session_parse::event_line(line) {
        Some(EventLine::Start(k, call, tag)) => start_task(ok, r, k, call, tag),
        Some(EventLine::Step(k)) => step_task(ok, r, k, ns, bs),
        None => reader_state::decided(Verdict::Refusal(10), r),
    }
}

// A closed line where a header line is due.
fn header_line(r: Reader, due: HeaderLine, ns: &mut [u32], bs: &mut [u32], line: &[u8]) -> Reader
    ensures { ReadAs (header_line (header_step due r.header (closed_line line.now)) r ns.old bs.old
        (closed_line line.now)) result ns.new bs.new }
{
    let t = session_machine::header_line(due, r.header, r.state, ns, bs, line);
    let here = Reader {
        header: t.header,
        state: t.state,
        ..r
    };
    let number = reader_state::next_number(r.number);
    match t.stage {
        Stage::NextDue(next) => Reader {
            phase: ReaderPhase::Due(next),
            number,
            ..here
        },
        Stage::OpenedBy => Reader {
            phase: ReaderPhase::Event,
            number,
            ..here
        },
        Stage::OpenedBefore => {
            let opened = Reader {
                phase: ReaderPhase::Event,
                ..here
            };
            turn_line(true, opened, ns, bs, line)
        }
        Stage::OpeningRefused(why) => reader_state::decided(Verdict::Refusal(why), here),
        Stage::Incomplete => reader_state::decided(Verdict::Refusal(10), here),
    }
}

// One closed line, without its closing byte 10. `ok` says whether memory is sound, and says the same after the line (`read_Known`): no line needs a scan.
pub fn read_line(ok: bool, r: Reader, ns: &mut [u32], bs: &mut [u32], line: &[u8]) -> Reader
    requires { KnownIn ok r ns.old bs.old }
    ensures { ReadAs (read_line r ns.old bs.old (closed_line line.now)) result ns.new bs.new }
{
    match r.phase {
        ReaderPhase::Due(due) => header_line(r, due, ns, bs, line),
        ReaderPhase::Event => turn_line(ok, r, ns, bs, line),
        ReaderPhase::Printed(k, o) => reader_state::comparing::compare_output(r, k, o, line),
        ReaderPhase::Listed(k) => listed_line(r, k, ns, bs, line),
        ReaderPhase::Decided(_) => r,
    }
}

// The end of the input, whose last line is closed or is not. Where the opening is still due it is only judged: a refusal keeps every word.
pub fn read_end(closed: bool, r: Reader, ns: &[u32], bs: &[u32]) -> Verdict
    ensures { result ≡ read_end closed r ns.now bs.now }
{
    let refusal = reader_state::missing(closed);
    match r.phase {
        ReaderPhase::Due(due) => {
            if !session_parse::optional(due) {
                return Verdict::Refusal(refusal);
            }
            match session_machine::judge_opening(r.header, ns, bs) {
                None => Verdict::Refusal(refusal),
                Some(why) => Verdict::Refusal(why.number()),
            }
        }
        ReaderPhase::Listed(k) => {
            if closed {
                listed_end(r, k, ns, bs)
            } else {
                Verdict::Refusal(refusal)
            }
        }
        ReaderPhase::Event | ReaderPhase::Printed(..) | ReaderPhase::Decided(_) => {
            reader_state::answer_at_end(r.phase, refusal)
        }
    }
}
