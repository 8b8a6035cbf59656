// Held versions, and the set that an operation makes.
use super::slices::get;
use crate::words::{HELPED, LAST, LINE, O, TASKS, mine, node, operation, version};
use reference_words::words::{either, less_1, plus, rest};

// "it is held while the bucket or a running task names it": memory is sound here, so an idle task names none.
fn is_held(w: &[u32], place: u32) -> bool {
    for k in 0..8 {
        if get(w, TASKS + 7 + 9 * k) == place {
            return true;
        }
    }
    node(w) == place
}

// Whether line 140 finds that "the bucket still has o".
pub fn still_has(w: &[u32]) -> bool {
    (mine(w, LINE) == 140) & (node(w) == mine(w, O))
}

// "taken as the first one not held after the last taken, going round and trying the last taken itself at the end": its place, 0 where all of so many are
// held.
pub fn free_version(w: &[u32], all: u32) -> u32 {
    let mut k = get(w, LAST);
    for _ in 0..all {
        k = rest(plus(k, 1), all);
        if !is_held(w, plus(k, 1)) {
            return plus(k, 1);
        }
    }
    0
}

// How many tags of o are below a number.
pub fn below(w: &[u32], x: u64) -> u32 {
    let o = mine(w, O);
    let count = version(w, o, 1);
    let mut n: u32 = 0;
    for j in 0..count {
        let tag = version(w, o, plus(j, 2)) as u64;
        n = plus(n, either(tag < x, 1, 0));
    }
    n
}

// Word j of what the operation of HELPFINISH makes of o: "its first 0 for no operation", the count (65 says that there are more than 64 tags), the tags below
// the key, the key if it is inserted, the tags above it.
pub fn made(w: &[u32], j: u32) -> u32 {
    let o = mine(w, O);
    let op = less_1(mine(w, HELPED));
    let key = operation(w, op, 1);
    let inserts = operation(w, op, 0) == 1;
    let low = plus(below(w, key as u64), 2);
    let has = plus(below(w, key as u64 + 1), 2) != low;
    let above = plus(j, either(has, 1, 0));
    let later = either(inserts, less_1(above), above);
    let count = version(w, o, 1);
    let changed = either(inserts, plus(count, 1), less_1(count));
    let tag = either(
        inserts & (j == low),
        key,
        version(w, o, either(j < low, j, later)),
    );
    either(
        j < 2,
        either(j == 0, 0, either(inserts == has, count, changed)),
        tag,
    )
}
