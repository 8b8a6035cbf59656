// A session over standard input; over standard output the memory that it leaves, for a fitter (docs/FITTERS.md), or the refusal with which it stopped.
// `yarddump` is the whole program as a function that gives the exit status.
#![tactic(auto)]

ghost use Rattle.std.specs.Prelude.{◌≡◌, ◌+◌, ◌*◌, ◌≤◌, length};
ghost use Rattle.session.specs.OutputLengths.{longest_line, longest_end};
ghost use Rattle.stdio.specs.Outcomes.{IsStatus};

use session_run::Progress;
use session_state::{Handled, Session};
use stdio::input::Input;
use stdio::output::Outcome;
use stdio::source::Source;

// What is printed between two reads, and then the dump. The `ensures` gives the length, which lending the array needs: an array as long as this is not
// unfolded where it is lent.
fn dump_room() -> [u8; 524288]
    ensures { 524288 ≡ length result }
{
    [0; 524288]
}

// The end of the input, as a step of task 8, which no set has: where the session goes on it is refused with 4 and changes no word. An opening that is
// still due is made by it, and a last line that is too long or not closed is outside the grammar. `printed` counts what was due too.
fn ended(
    s: Session,
    p: Input,
    due: usize,
    ns: &mut [u32],
    bs: &mut [u32],
    out: &mut [u8],
) -> Handled
    requires { due ≤ length out.old }
    ensures { result.printed ≤ length out.old }
{
    let long = partial_line::too_long();
    let line: &[u8] = if stdio::input::cut_off(p) {
        &long
    } else {
        b"step=8"
    };
    let t = session_lines::handle_line(s, ns, bs, line, &mut out[due..]);
    Handled {
        printed: due + t.printed,
        ..t
    }
}

// The memory of a session that has ended: its part of the pools.
fn dump(s: Session, ns: &[u32], bs: &[u32], out: &mut [u8]) -> usize
    ensures { result ≤ length out.old }
{
    let a = session_pools::node_extent(s.header.nodes, ns.len());
    let b = session_pools::bucket_extent(s.header.buckets, bs.len());
    dump_text::dump(s.state, &ns[..a], &bs[..b], out).printed
}

// The last line of what was printed.
fn refused(p: Input, out: &[u8], n: usize) -> Outcome
    requires { n ≤ length out.now }
{
    let a = stdio::output::last_line(&out[..n]);
    stdio::output::answer(b"dump", p, &out[a..n])
}

fn finish(k: Progress, ns: &mut [u32], bs: &mut [u32], out: &mut [u8]) -> Outcome
    requires { k.due ≤ length out.old }
{
    let t = ended(k.session, k.input, k.due, ns, bs, out);
    if session_state::has_stopped(t.session.phase) {
        return refused(k.input, out, t.printed);
    }
    let n = dump(t.session, ns, bs, out);
    stdio::output::answer(b"dump", k.input, &out[..n])
}

fn run<S: Source>(
    from: &mut S,
    room: &mut [u8],
    ns: &mut [u32],
    bs: &mut [u32],
    out: &mut [u8],
) -> i32
    requires { longest_line * length room.old + longest_end ≤ length out.old }
    ensures { IsStatus result }
{
    let k = session_run::read(from, true, false, room, ns, bs, out);
    stdio::output::status(finish(k, ns, bs, out))
}

// The dump program.
pub fn yarddump<S: Source>(from: &mut S) -> i32
    ensures { IsStatus result }
{
    let mut room = stdio::input::room();
    let mut ns = session_pools::node_words();
    let mut bs = session_pools::bucket_words();
    let mut out = dump_room();
    run(from, &mut room, &mut ns, &mut bs, &mut out)
}
