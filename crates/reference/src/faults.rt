// Refusal 8, general part: "Spoilt memory". Memory is sound if no word of it is bad.
use super::places::{bucket_at, head, node};
use super::table::{KIND, entry};
use super::taking::is_held_node;
use reference_words::words::{
    B, BUCKET_WORDS, BUCKETS, CHOSEN, H, HEAD, LAST_BUCKET, LAST_NODE, Memory, NODE_WORDS, NODES,
    RECORDS, SPAN, T, VERSION, either, field_at, get, letter, plus, rest,
};

fn outside(x: u32, most: u32) -> bool {
    (x == 0) | (most < x)
}

// Tasks, words of both slices and version. "1 T outside its bounds; 2 node slice not 34 × H words for an H within bounds; 3 bucket slice not 66 × B
// words for a B within bounds"; "11, opening with another version, after 3". 0 where all fit.
pub fn unfit(t: u32, n: u32, b: u32, version: u32) -> u32 {
    let bad_nodes = outside(n / 34, 64) | (n % 34 != 0);
    let bad_buckets = outside(b / 66, 1024) | (b % 66 != 0);
    let other = either(outside(version, 2), 11, 0);
    let bad_slice = either(bad_nodes, 2, either(bad_buckets, 3, other));
    either(outside(t, 8), 1, bad_slice)
}

// "if T, H, B or a slice length is wrong"; "A yard is opened for version 1 or 2 and its state keeps the version (another there is 8)".
fn bad_shape(w: &Memory) -> bool {
    let n = get(w, NODE_WORDS);
    let b = get(w, BUCKET_WORDS);
    let why = unfit(get(w, T), n, b, get(w, VERSION));
    (why != 0) | (get(w, H) != n / 34) | (get(w, B) != b / 66)
}

// "a record number is past its pool", of the head and of both last taken; of the last one chosen "T or more is 8". "the head .. has size 0".
fn bad_header(w: &Memory) -> bool {
    let h = get(w, H);
    let past_nodes = (h <= get(w, HEAD)) | (h <= get(w, LAST_NODE));
    let past_buckets = get(w, B) <= get(w, LAST_BUCKET);
    past_nodes | past_buckets | (get(w, T) <= get(w, CHOSEN)) | (node(w, head(w), 0) == 0)
}

// "a running task's line is not one of its call's": of the call's own kind or, but for contains, of those that fill a place.
fn bad_line(own: u8, line: u32) -> bool {
    let kind = entry(line, KIND);
    (kind != own) & ((kind != b'f') | (own == b'c'))
}

// What word j of task k's record must be, for `tells`, by its call: none, insert, remove, contains, grow, shrink. With another call all must be 0, and the
// call is not.
fn task_letter(w: &Memory, k: u32, j: u32) -> u8 {
    let call = get(w, field_at(k, 1));
    letter(
        b"0000000000000
T..ui.nnbbbnb
T..ui.nnbbbnb
T..ci.nnbbbnb
T.0ri.nnbbbnb
T.0ri.nnbbbnb
",
        either(call < 6, call, 0) as usize * 14 + j as usize,
    )
}

// The same for word j of a record of a pool, by four letters from `first` on: its first word, its second, `count` words more, those after.
fn pool_letter(first: usize, count: u32, j: u32) -> u8 {
    let more = either(plus(count, 2) <= j, 3, 2);
    letter(b"snb014a0", first % 8 + either(j < 2, j, more) as usize)
}

// The same for word n of all tasks, all nodes or all buckets.
fn must_be(w: &Memory, all: usize, n: u32) -> u8 {
    match all {
        RECORDS => task_letter(w, n / 13, n % 13),
        NODES => pool_letter(0, node(w, n / 34 + 1, 0), n % 34),
        _ => pool_letter(4, get(w, bucket_at(n / 66 + 1, 1)), n % 66),
    }
}

// Whether word n of these is bad, by what it must be:
// - 0: "a place at or past it is filled", "a word after them not 0", "an idle task's record is not zeros", "a resize has a tag";
// - T: "a task from T on runs", and with a call it does run; i: "its i is over 32";
// - 1 and 4: "a bucket's first word is over 1, its count over 64"; s: "a node's size is neither 0 nor a listed one", one that divides 32;
// - n, the place of a node, and b, of a bucket: "a record number is past its pool", "a task's node or a predecessor has size 0";
// - a: "its tags not strictly ascending"; u, c, r: a line of the call's kind.
// Or, with `of`, whether it places that bucket: a word that must be a bucket's place, of a node only if that is held.
fn tells(w: &Memory, all: usize, n: u32, of: u32) -> bool {
    let at = all % SPAN + n as usize;
    let x = get(w, at);
    let must = must_be(w, all, n);
    if of != 0 {
        if (x == of) & (must == b'b') {
            return (all == RECORDS) | is_held_node(w, n / 34 + 1);
        }
        return false;
    }
    match must {
        b'.' => false,
        b'0' => x != 0,
        b'T' => (x == 0) | (get(w, T) <= n / 13),
        b'i' => 32 < x,
        b'1' => 1 < x,
        b'4' => 64 < x,
        b's' => rest(32, x) != 0,
        b'n' => (x != 0) & ((get(w, H) < x) | (node(w, x, 0) == 0)),
        b'b' => get(w, B) < x,
        b'a' => (n % 66 != 2) & (x <= get(w, (at + 999999) % 1000000)),
        own => bad_line(own, x),
    }
}

// Whether one of so many words does.
pub fn among(w: &Memory, all: usize, count: u32, of: u32) -> bool {
    for n in 0..count {
        if tells(w, all, n, of) {
            return true;
        }
    }
    false
}

// Where T, H, B, the version or a length is wrong nothing else is looked at. The rule for tag 0, the state's last word, is never bad.
pub fn spoilt(w: &Memory) -> bool {
    if bad_shape(w) {
        return true;
    }
    bad_header(w)
        | among(w, RECORDS, 104, 0)
        | among(w, NODES, get(w, NODE_WORDS), 0)
        | among(w, BUCKETS, get(w, BUCKET_WORDS), 0)
}
