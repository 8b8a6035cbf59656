// One call on both implementations. The proved bucket gets the words that the second implementation has before the call; every word is compared
// afterwards.
use crate::flat;
use crate::vars::{DIFFERS, FIRST_VERSIONS, RAN};
use coop_lines::Stepped;
use coop_opening::Opened;
use coop_reference::slices::{copy, get, put};
use coop_reference::words::{
    ASKED_K, ASKED_N, ASKED_TAG, CALL, VERSION_WORDS, VERSIONS, WHAT, mine,
};
use coop_spec::{Call, State};
use reference_words::words::{SPAN, either};

fn call_of(what: u32) -> Call {
    match what {
        1 => Call::InvokeInsert,
        2 => Call::InvokeRemove,
        3 => Call::Freeze,
        4 => Call::HasMember,
        _ => Call::GetResponse,
    }
}

fn versions_are(m: &[u32]) -> bool {
    let n = get(m, VERSION_WORDS);
    for i in 0..n as usize {
        if get(m, VERSIONS + i) != get(m, FIRST_VERSIONS + i) {
            return false;
        }
    }
    true
}

fn compare(m: &mut [u32], s: State, said: [u32; 3]) {
    coop_reference::act(m);
    let same = flat::state_is(m, s) & flat::reply_is(m, said) & versions_are(m);
    put(m, DIFFERS, either(same, 0, 1));
}

// A step over the words from `lent` on.
fn step(m: &mut [u32], lent: usize) {
    let from = lent % SPAN;
    let end = from + get(m, VERSION_WORDS) as usize;
    if m.len() < end {
        return;
    }
    let r = coop::step(flat::state_of(m), get(m, ASKED_K), &mut m[from..end]);
    compare_step(m, r);
}

fn start(m: &mut [u32]) {
    let call = call_of(get(m, WHAT));
    let end = FIRST_VERSIONS + get(m, VERSION_WORDS) as usize;
    if m.len() < end {
        return;
    }
    let s = flat::state_of(m);
    let r = coop::start(
        s,
        get(m, ASKED_K),
        call,
        get(m, ASKED_N),
        get(m, ASKED_TAG),
        &m[FIRST_VERSIONS..end],
    );
    compare_step(m, r);
}

fn compare_step(m: &mut [u32], r: Stepped) {
    compare(m, r.state, flat::output_words(r.out));
}

fn compare_open(m: &mut [u32], r: Opened) {
    let said = match r.refusal {
        None => [0, 0, 0],
        Some(refusal) => [2, refusal.number(), 0],
    };
    compare(m, r.state, said);
}

fn open(m: &mut [u32], lent: usize) {
    let from = lent % SPAN;
    let end = from + get(m, VERSION_WORDS) as usize;
    if m.len() < end {
        return;
    }
    let r = coop_opening::open(get(m, ASKED_K), &mut m[from..end]);
    compare_open(m, r);
}

// What is asked, as of the second implementation; nothing for 7.
pub fn call(m: &mut [u32]) {
    copy(m, VERSIONS, FIRST_VERSIONS, get(m, VERSION_WORDS) as usize);
    put(m, RAN, mine(m, CALL));
    let what = get(m, WHAT);
    match what {
        0 => step(m, FIRST_VERSIONS),
        6 => open(m, FIRST_VERSIONS),
        7 => (),
        _ => start(m),
    }
}
