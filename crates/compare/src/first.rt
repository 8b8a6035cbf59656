// The proved set, over words: each entry takes the state out of the words that m had before the call. Whether its answer and the next state are those
// that the second implementation has left in m.
use crate::both::{alike, lent, load};
use crate::flat;
use crate::vars::FIRST;
use reference_words::words::{ASKED_K, ASKED_RULE, ASKED_TAG, LENT, Memory, NODE_WORDS, WHAT, get};
use spec::{Call, Config};

fn call_of(n: u32) -> Call {
    match n {
        1 => Call::Insert,
        2 => Call::Remove,
        3 => Call::Contains,
        4 => Call::Grow,
        _ => Call::Shrink,
    }
}

fn step(m: &Memory, ns: &mut [u32], bs: &mut [u32]) -> bool {
    let r = hashset::step(flat::state_of(m), get(m, ASKED_K), ns, bs);
    flat::is_stepped(m, r)
}

fn start(m: &Memory, ns: &[u32], bs: &[u32]) -> bool {
    let s = flat::state_of(m);
    let call = call_of(get(m, WHAT));
    let r = hashset::start(s, get(m, ASKED_K), call, get(m, ASKED_TAG), ns, bs);
    flat::is_stepped(m, r)
}

fn turn(m: &Memory, ns: &mut [u32], bs: &mut [u32]) -> bool {
    let r = dispatch::turn(flat::state_of(m), ns, bs);
    flat::is_turned(m, r)
}

fn config(m: &Memory) -> Config {
    Config {
        tasks: get(m, ASKED_K),
        version: get(m, ASKED_TAG),
        zero_withdrawn: get(m, ASKED_RULE) != 0,
    }
}

fn open(m: &Memory, ns: &mut [u32], bs: &mut [u32]) -> bool {
    let o = opening::open(config(m), ns, bs);
    flat::is_opened(m, o)
}

fn is_lent(m: &Memory, words: &[u32; 73]) -> bool {
    alike(words, m, LENT)
}

// A list into so many words, of those that are lent.
fn list(m: &Memory, ns: &[u32], bs: &[u32]) -> bool {
    let mut out = [0; 73];
    load(&mut out, m, FIRST + LENT);
    let n = lent(m, ASKED_K, 73);
    let l = queries::list(flat::state_of(m), ns, bs, &mut out[0..n]);
    flat::is_answered(m, flat::listing(l)) & is_lent(m, &out)
}

// What is shown stands first of the lent words, and others stay.
fn show(m: &Memory, ns: &[u32], bs: &[u32]) -> bool {
    let part = queries::show(flat::state_of(m), ns, bs, get(m, ASKED_K));
    let n = part.len() % 1000;
    let shown = alike(part, m, LENT);
    shown & flat::is_answered(m, [0, n as u32, 0, 0, 0]) & flat::is_kept(m, LENT + n, NODE_WORDS)
}

// Calls that leave both pools as they are.
fn ask(m: &Memory, ns: &[u32], bs: &[u32]) -> bool {
    match get(m, WHAT) {
        6 => list(m, ns, bs),
        7 => show(m, ns, bs),
        _ => start(m, ns, bs),
    }
}

pub fn act(m: &Memory, ns: &mut [u32], bs: &mut [u32]) -> bool {
    match get(m, WHAT) {
        0 => step(m, ns, bs),
        8 => open(m, ns, bs),
        9 => turn(m, ns, bs),
        _ => ask(m, ns, bs),
    }
}
