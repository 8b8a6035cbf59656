// The yard set for C: one call at a time, and many turns in one call, over words that the caller lends: the state's 113 words, both
// pools, and the answer's words. include/yard.h has the layout and the numbers, specs/Calls and specs/Runs what each call gives and leaves.
#![tactic(auto)]

ghost use Rattle.std.specs.Prelude.{◌≡◌, ◌&&◌, [], ◌/◌, eqb, length, min};
ghost use Rattle.state_words.specs.StateWords.{state_fits};
ghost use Rattle.spec.specs.declared.Call.TheVariants.{Insert, Remove, Contains, Grow, Shrink};
ghost use Rattle.schedule.specs.Encoding.{c_config};
ghost use Rattle.c_calls.specs.Calls.{called, c_open, c_start, c_step, c_turn, c_list, c_show};
ghost use Rattle.c_calls.specs.Runs.{c_turns};

use spec::Call;

// 256 and the number of refusal 8.
const SPOILT: u32 = 264;

// ---- opening

// Opens the set on both pools and writes the state's words.
pub fn yard_open(
    tasks: u32,
    version: u32,
    withdrawn: u32,
    w: &mut [u32],
    ns: &mut [u32],
    bs: &mut [u32],
) -> u32
    ensures { called result w.new ns.new bs.new []
        ≡ c_open (c_config tasks version withdrawn) w.old ns.old bs.old }
{
    if w.len() != yard_words::STATE_WORDS {
        return SPOILT;
    }
    let g = schedule::config(tasks, version, withdrawn);
    let o = opening::open(g, ns, bs);
    let s = o.state;
    yard_words::put_state(w, s);
    yard_answers::open_number(o.refusal)
}

// ---- start, step and turn

// Whether the words are a state's, and the answer has so many.
fn ready(w: &[u32], out: &[u32], n: usize) -> bool
    ensures { result ≡ (state_fits w.now && eqb (length out.now) n) }
{
    yard_words::state_fits(w) & (out.len() == n)
}

// A start of any call.
fn started(
    w: &mut [u32],
    k: u32,
    call: Call,
    tag: u32,
    ns: &[u32],
    bs: &[u32],
    out: &mut [u32],
) -> u32
    ensures { called result w.new ns.now bs.now out.new
        ≡ c_start call w.old k tag ns.now bs.now out.old }
{
    if !ready(w, out, 4) {
        return SPOILT;
    }
    let m = hashset_words::moved_by_start(w, k, call, tag, ns, bs);
    yard_answers::put_moved(w, k, m);
    yard_answers::put_output(out, m.out)
}

// Starts an insert for a task; and so on: a function for each call, so that there is no bad call.
pub fn yard_start_insert(
    w: &mut [u32],
    k: u32,
    tag: u32,
    ns: &[u32],
    bs: &[u32],
    out: &mut [u32],
) -> u32
    ensures { called result w.new ns.now bs.now out.new
        ≡ c_start Insert w.old k tag ns.now bs.now out.old }
{
    started(w, k, Call::Insert, tag, ns, bs, out)
}

pub fn yard_start_remove(
    w: &mut [u32],
    k: u32,
    tag: u32,
    ns: &[u32],
    bs: &[u32],
    out: &mut [u32],
) -> u32
    ensures { called result w.new ns.now bs.now out.new
        ≡ c_start Remove w.old k tag ns.now bs.now out.old }
{
    started(w, k, Call::Remove, tag, ns, bs, out)
}

pub fn yard_start_contains(
    w: &mut [u32],
    k: u32,
    tag: u32,
    ns: &[u32],
    bs: &[u32],
    out: &mut [u32],
) -> u32
    ensures { called result w.new ns.now bs.now out.new
        ≡ c_start Contains w.old k tag ns.now bs.now out.old }
{
    started(w, k, Call::Contains, tag, ns, bs, out)
}

pub fn yard_start_grow(w: &mut [u32], k: u32, ns: &[u32], bs: &[u32], out: &mut [u32]) -> u32
    ensures { called result w.new ns.now bs.now out.new
        ≡ c_start Grow w.old k 0 ns.now bs.now out.old }
{
    started(w, k, Call::Grow, 0, ns, bs, out)
}

pub fn yard_start_shrink(w: &mut [u32], k: u32, ns: &[u32], bs: &[u32], out: &mut [u32]) -> u32
    ensures { called result w.new ns.now bs.now out.new
        ≡ c_start Shrink w.old k 0 ns.now bs.now out.old }
{
    started(w, k, Call::Shrink, 0, ns, bs, out)
}

// Steps a task by one line.
pub fn yard_step(w: &mut [u32], k: u32, ns: &mut [u32], bs: &mut [u32], out: &mut [u32]) -> u32
    ensures { called result w.new ns.new bs.new out.new
        ≡ c_step w.old k ns.old bs.old out.old }
{
    if !ready(w, out, 4) {
        return SPOILT;
    }
    let m = hashset_words::moved_by_step(w, k, ns, bs);
    yard_answers::put_moved(w, k, m);
    yard_answers::put_output(out, m.out)
}

// One turn of the dispatcher, as `turn` of dispatch has it. Only the words that change are written.
pub fn yard_turn(w: &mut [u32], ns: &mut [u32], bs: &mut [u32], out: &mut [u32]) -> u32
    ensures { called result w.new ns.new bs.new out.new
        ≡ c_turn w.old ns.old bs.old out.old }
{
    if !ready(w, out, 5) {
        return SPOILT;
    }
    let e = sound_words::check(w, 0, ns, bs);
    if e.is_none() {
        return SPOILT;
    }
    let s = sound_words::state_of_words(w);
    let Some(k) = dispatch::next_task(s) else {
        return 0;
    };
    let d = sound_words::known(w, k);
    let m = checked_step::step(s, d, k, ns, bs);
    if dispatch::uses_turn(m.out) {
        yard_answers::put_turned(w, k, m);
    }
    yard_answers::put_named(out, 0, k, m.out);
    1
}

// ---- list and show

// Writes the tags in the set, ascending.
pub fn yard_list(w: &[u32], ns: &[u32], bs: &[u32], out: &mut [u32]) -> u32
    ensures { called result w.now ns.now bs.now out.new
        ≡ c_list w.now ns.now bs.now out.old }
{
    if !yard_words::state_fits(w) {
        return SPOILT;
    }
    let s = yard_words::state_of_words(w);
    let l = queries::list(s, ns, bs, out);
    schedule_events::listing_number(l)
}

// How many tags bucket k has, and where the first of them stands.
pub fn yard_show(w: &[u32], k: u32, ns: &[u32], bs: &[u32], out: &mut [u32]) -> u32
    ensures { called result w.now ns.now bs.now out.new
        ≡ c_show w.now k ns.now bs.now out.old }
{
    if !ready(w, out, 1) {
        return 0;
    }
    let s = yard_words::state_of_words(w);
    let part = queries::show(s, ns, bs, k);
    let n = part.len();
    if n == 0 {
        return 0;
    }
    out[0] = 66 * k + 2;
    n as u32
}

// ---- many turns

// How many turns have room for their words; a number of turns is below that of every refusal.
fn turns_room(n: usize) -> usize
    ensures { result ≡ min 255 (n / 5) }
{
    (n / 5).min(255)
}

// Takes the turns that have room for their words, up to the first that finds nothing to run. Memory is looked through once, before the first of them.
pub fn yard_turns(w: &mut [u32], ns: &mut [u32], bs: &mut [u32], outs: &mut [u32]) -> u32
    ensures { called result w.new ns.new bs.new outs.new
        ≡ c_turns w.old ns.old bs.old outs.old }
{
    if !yard_words::state_fits(w) {
        return SPOILT;
    }
    let s = yard_words::state_of_words(w);
    if !soundness::sound(s, ns, bs) {
        return SPOILT;
    }
    let n = turns_room(outs.len());
    let r = dispatch_turns::run_turns(s, n, ns, bs, outs);
    let t = r.state;
    yard_words::put_state(w, t);
    r.turns as u32
}
