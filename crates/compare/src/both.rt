// One call on both implementations. The proved set gets the words that the second implementation has before the call; every word is compared
// afterwards.
ghost use Rattle.std.specs.Prelude.{◌≤◌};

use crate::vars::FIRST;
use crate::{first, report};
use reference_words::words::{
    BUCKET_WORDS, BUCKETS, Memory, NODE_WORDS, NODES, SPAN, WHAT, copy, get,
};

// The words of m from `from` on become those of s.
pub fn load(s: &mut [u32], m: &Memory, from: usize) {
    let a = from % SPAN;
    for (i, word) in s.iter_mut().enumerate() {
        *word = get(m, a + i % SPAN);
    }
}

// Whether the words of s are those of m from `from` on.
pub fn alike(s: &[u32], m: &Memory, from: usize) -> bool {
    let a = from % SPAN;
    for (i, word) in s.iter().enumerate() {
        if *word != get(m, a + i % SPAN) {
            return false;
        }
    }
    true
}

// The second implementation. What it has before the call is kept.
fn second(m: &mut Memory) {
    copy(m, 0, FIRST, NODE_WORDS);
    reference::act(m)
}

// What the proved set gives and leaves is to be what the second implementation has given and left.
fn compared(m: &mut Memory, ns: &mut [u32], bs: &mut [u32]) {
    load(ns, m, NODES);
    load(bs, m, BUCKETS);
    second(m);
    let given = first::act(m, ns, bs);
    let same = given & alike(ns, m, NODES) & alike(bs, m, BUCKETS);
    report::after(m, same)
}

// How many words are lent, a number that m has, up to so many.
pub fn lent(m: &Memory, at: usize, most: usize) -> usize
    ensures { result ≤ most }
{
    let n = get(m, at) as usize;
    if n < most { n } else { most }
}

// The call over pools of as many words as are lent.
pub fn call(m: &mut Memory, ns: &mut [u32], bs: &mut [u32]) {
    if 9 < m[WHAT] {
        return;
    }
    let n = lent(m, NODE_WORDS, ns.len());
    let b = lent(m, BUCKET_WORDS, bs.len());
    compared(m, &mut ns[0..n], &mut bs[0..b]);
}
