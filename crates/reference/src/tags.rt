// Sets of tags, gone through upwards: each time the smallest tag from a number on is asked for, of all buckets that give tags to the set.
use super::places::{at_home, head, home, node};
use reference_words::words::{
    ASKED_K, AT_B, AT_M, AT_N, AT_T, B, BUCKETS, I, MADE, Memory, TAG, either, get, less_1, put,
};

// Stands for no tag.
pub const NONE: u64 = 4294967296;
// The sets: no tags, what b has after an insert or a remove changes it, the listed tags, those of the bucket that is shown, b's tags, what line 49 makes.
pub const NO_TAGS: u32 = 0;

pub const AFTER_INSERT: u32 = 1;

pub const AFTER_REMOVE: u32 = 2;

pub const LISTED_TAGS: u32 = 6;

pub const SHOWN_TAGS: u32 = 7;

pub const TAGS_OF_B: u32 = 36;

pub const MADE_BY_49: u32 = 49;

// "Tag k is in the set if the head's place k mod size names a bucket with k; where that place is empty, the predecessor's place k mod (its
// size) decides": the place of the bucket that decides on a tag.
fn decider(w: &Memory, tag: u32) -> u32 {
    let own = at_home(w, head(w), tag);
    if own != 0 {
        return own;
    }
    at_home(w, node(w, head(w), 1), tag)
}

// "m's tags with tag mod (t's size) = i, or with n filled the union of m and n"
fn poured(w: &Memory, place: u32, tag: u32) -> bool {
    let n = get(w, AT_N);
    let fits = (n != 0) | (home(w, get(w, AT_T), tag) == get(w, I));
    (place == n) | (fits & (place == get(w, AT_M)))
}

// Whether the bucket in a place gives this tag of its own to a set.
fn gives(w: &Memory, set: u32, place: u32, tag: u32) -> bool {
    match set {
        LISTED_TAGS => decider(w, tag) == place,
        SHOWN_TAGS => less_1(place) == get(w, ASKED_K),
        MADE_BY_49 => poured(w, place, tag),
        AFTER_REMOVE => (place == get(w, AT_B)) & (tag != get(w, TAG)),
        _ => place == get(w, AT_B),
    }
}

// The smaller of the best tag so far and tag n of all buckets, with room for 64 in each.
fn better(w: &Memory, set: u32, n: u32, from: u64, best: u64) -> u64 {
    let first = BUCKETS + (n / 64) as usize * 66;
    let tag = get(w, first + 2 + (n % 64) as usize);
    let x = tag as u64;
    if (best <= x) | (x < from) | (get(w, first + 1) <= n % 64) {
        return best;
    }
    if gives(w, set, n / 64 + 1, tag) {
        x
    } else {
        best
    }
}

// The tag that an insert brings.
fn brought(w: &Memory, set: u32, from: u64) -> u64 {
    let tag = get(w, TAG) as u64;
    if (set == AFTER_INSERT) & (from <= tag) {
        return tag;
    }
    NONE
}

// The smallest tag of a set from `from` on.
pub fn smallest(w: &Memory, set: u32, from: u64) -> u64 {
    let none = (set == NO_TAGS) | (NONE <= from);
    let all = either(none, 0, get(w, B) % 4096 * 64);
    let mut best = brought(w, set, from);
    for n in 0..all {
        best = better(w, set, n, from, best);
    }
    best
}

// How many tags a set has. A count of 65 says that there are more than 64.
pub fn count(w: &Memory, set: u32) -> u32 {
    let mut from: u64 = 0;
    for n in 0..65 {
        let tag = smallest(w, set, from);
        if NONE <= tag {
            return n;
        }
        from = tag + 1;
    }
    65
}

// The tags of a set, of a record that is made, then zeros.
pub fn gather(w: &mut Memory, set: u32) {
    let mut from: u64 = 0;
    for at in MADE + 2..MADE + 67 {
        let tag = smallest(w, set, from);
        put(w, at, (tag % NONE) as u32);
        from = tag % (NONE + 1) + 1;
    }
}
