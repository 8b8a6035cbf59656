// The cooperative bucket for C: one call at a time over words that the caller lends: the state's 397 words, the versions, and the answer's words.
// include/coop.h has the layout and the numbers, specs/Calls what each call gives and leaves.
#![tactic(auto)]

ghost use Rattle.std.specs.Prelude.{◌≡◌, ◌&&◌, [], ◌≤◌, eqb, length};
ghost use Rattle.coop_state_words.specs.StateWords.{state_fits};
ghost use Rattle.coop_spec.specs.Numbers.{opening_number};
ghost use Rattle.yard_answers.specs.Answers.{open_number};
ghost use Rattle.coop_spec.specs.declared.Call.TheVariants.{InvokeInsert, InvokeRemove, Freeze, HasMember, GetResponse};
ghost use Rattle.coop_spec.specs.Machine.{machine_of};
ghost use Rattle.coop_c.specs.Answers.{out_number, out_left};
ghost use Rattle.coop_c.specs.Calls.{called, c_open, c_start, c_step, shown, c_show};

use coop_spec::{Call, Output, Refusal, State};

// 256 and the number of refusal 8.
const SPOILT: u32 = 264;

// ---- opening

// An opening's number: 0, or 256 and the refusal's. (`yard_answers::open_number` is of the set's refusals.)
fn open_number(why: Option<Refusal>) -> u32
    ensures { result ≡ open_number (opening_number why) }
{
    match why {
        None => 0,
        Some(refusal) => 256 + refusal.number(),
    }
}

// Opens the bucket on a pool of versions and writes the state's words.
pub fn coop_open(tasks: u32, w: &mut [u32], vs: &mut [u32]) -> u32
    ensures { called result w.new vs.new [] ≡ c_open tasks w.old vs.old }
{
    if w.len() != coop_c_words::STATE_WORDS {
        return SPOILT;
    }
    let o = coop_opening::open(tasks, vs);
    let s = o.state;
    coop_c_words::put_state(w, s);
    open_number(o.refusal)
}

// ---- start and step

// Whether the words are a state's, and the answer has so many.
fn ready(w: &[u32], out: &[u32], n: usize) -> bool
    ensures { result ≡ (state_fits w.now && eqb (length out.now) n) }
{
    coop_c_words::state_fits(w) & (out.len() == n)
}

// An output's number, and its words unless it is a refusal.
fn put_output(out: &mut [u32], o: Output) -> u32
    requires { (length out.old ≡ 4) × (out_number o ≤ 511) }
    ensures { (result ≡ out_number o) × (out.new ≡ out_left o out.old) }
{
    if let Err(why) = o {
        return 256 + why.number();
    }
    schedule_words::write_words(out, 0, coop_words::output_words(o));
    0
}

// A start of any call. (A state that is passed on as a field of a reply is copied once more on the stack: it has a name first.)
fn started(w: &mut [u32], k: u32, call: Call, op: u32, tag: u32, vs: &[u32], out: &mut [u32]) -> u32
    ensures { called result w.new vs.now out.new
        ≡ c_start call w.old k op tag vs.now out.old }
{
    if !ready(w, out, 4) {
        return SPOILT;
    }
    let s = coop_c_words::state_of_words(w);
    let r = coop::start(s, k, call, op, tag, vs);
    let z = r.state;
    coop_c_words::put_state(w, z);
    put_output(out, r.out)
}

// Starts an invoke of an operation that inserts a tag; and so on: a function for each call, so that there is no bad call.
pub fn coop_start_insert(
    w: &mut [u32],
    k: u32,
    op: u32,
    tag: u32,
    vs: &[u32],
    out: &mut [u32],
) -> u32
    ensures { called result w.new vs.now out.new
        ≡ c_start InvokeInsert w.old k op tag vs.now out.old }
{
    started(w, k, Call::InvokeInsert, op, tag, vs, out)
}

pub fn coop_start_remove(
    w: &mut [u32],
    k: u32,
    op: u32,
    tag: u32,
    vs: &[u32],
    out: &mut [u32],
) -> u32
    ensures { called result w.new vs.now out.new
        ≡ c_start InvokeRemove w.old k op tag vs.now out.old }
{
    started(w, k, Call::InvokeRemove, op, tag, vs, out)
}

pub fn coop_start_freeze(w: &mut [u32], k: u32, vs: &[u32], out: &mut [u32]) -> u32
    ensures { called result w.new vs.now out.new
        ≡ c_start Freeze w.old k 0 0 vs.now out.old }
{
    started(w, k, Call::Freeze, 0, 0, vs, out)
}

pub fn coop_start_member(w: &mut [u32], k: u32, tag: u32, vs: &[u32], out: &mut [u32]) -> u32
    ensures { called result w.new vs.now out.new
        ≡ c_start HasMember w.old k 0 tag vs.now out.old }
{
    started(w, k, Call::HasMember, 0, tag, vs, out)
}

pub fn coop_start_response(w: &mut [u32], k: u32, op: u32, vs: &[u32], out: &mut [u32]) -> u32
    ensures { called result w.new vs.now out.new
        ≡ c_start GetResponse w.old k op 0 vs.now out.old }
{
    started(w, k, Call::GetResponse, op, 0, vs, out)
}

// Steps a task by one line.
pub fn coop_step(w: &mut [u32], k: u32, vs: &mut [u32], out: &mut [u32]) -> u32
    ensures { called result w.new vs.new out.new
        ≡ c_step w.old k vs.old out.old }
{
    if !ready(w, out, 4) {
        return SPOILT;
    }
    let s = coop_c_words::state_of_words(w);
    let r = coop::step(s, k, vs);
    let z = r.state;
    coop_c_words::put_state(w, z);
    put_output(out, r.out)
}

// ---- show

// How many tags version k has; none for a bad number or spoilt memory.
fn tags_shown(s: State, k: u32, vs: &[u32]) -> u32
    ensures { result ≡ length (shown (machine_of s vs.now) k) }
{
    if !coop_sound::sound(s, vs) {
        return 0;
    }
    if s.versions <= k {
        return 0;
    }
    pool::word(vs, coop_pool::VERSION_WORDS * (k as usize) + 1)
}

// How many tags version k has, and where the first of them stands.
pub fn coop_show(w: &[u32], k: u32, vs: &[u32], out: &mut [u32]) -> u32
    ensures { called result w.now vs.now out.new
        ≡ c_show w.now k vs.now out.old }
{
    if !ready(w, out, 1) {
        return 0;
    }
    let s = coop_c_words::state_of_words(w);
    let n = tags_shown(s, k, vs);
    if n == 0 {
        return 0;
    }
    out[0] = 66 * k + 2;
    n
}
