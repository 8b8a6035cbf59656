// What a line sees, in memory as it is before the line, and what follows: whether it is refused, the next line, the answer.
use super::places::{bucket_at, head, home, node, node_at};
use super::table::{BECOMES, LOOK_AT, LOOK_OF, NEXT, STORES, THROUGH, THROUGH_TOO, WAY, entry};
use super::tags::{LISTED_TAGS, NO_TAGS, TAGS_OF_B, count, smallest};
use reference_words::words::{
    ASKED_TAG, AT_B, AT_M, AT_N, AT_S, AT_T, CALL, FREE, HEAD, I, MINE, Memory, NEW_BUCKET,
    NEW_NODE, OWN, ROW, T, TAG, WHAT, either, get, less_1, plus, rest,
};

// A letter of the row of this call.
fn cell(w: &Memory, column: usize) -> u8 {
    entry(get(w, ROW), column)
}

// Where the word is that a letter names: a place of the task's record, the head, the record that would be taken. "." names T, which is never 0.
fn named_at(x: u8) -> usize {
    match x {
        b't' => AT_T,
        b's' => AT_S,
        b'b' => AT_B,
        b'm' => AT_M,
        b'n' => AT_N,
        b'N' => NEW_NODE,
        b'B' => NEW_BUCKET,
        b'h' => HEAD,
        b'f' => FREE,
        _ => T,
    }
}

fn named(w: &Memory, column: usize) -> u32 {
    get(w, named_at(cell(w, column)))
}

// The number of the place that the line looks at, 0 for none.
fn place_number(w: &Memory) -> u32 {
    let i = get(w, I);
    match cell(w, LOOK_AT) {
        b'k' => home(w, named(w, LOOK_OF), get(w, TAG)),
        b'i' => i,
        b'r' => rest(i, node(w, named(w, LOOK_OF), 0)),
        b'q' => plus(i, node(w, get(w, AT_T), 0)),
        _ => 0,
    }
}

// Where the word is that the line looks at.
pub fn look_at(w: &Memory) -> usize {
    match cell(w, LOOK_AT) {
        b'.' => named_at(cell(w, LOOK_OF)),
        b'1' => bucket_at(named(w, LOOK_OF), 0),
        b'p' => node_at(named(w, LOOK_OF), 1),
        _ => node_at(named(w, LOOK_OF), plus(2, place_number(w))),
    }
}

// What the line sees: that word. The head is kept as a number, and its place is 1 more.
fn seen(w: &Memory) -> u32 {
    let at = look_at(w);
    plus(get(w, at), either(at == HEAD, 1, 0))
}

// "twice or half the size"
pub fn resized(w: &Memory, of: u32) -> u32 {
    let size = node(w, of, 0);
    either(get(w, CALL) == 4, plus(size, size), size / 2)
}

// "makes a node of an unlisted size". "Buckets in a node: 1, 2, 4, 8, 16 or 32": what divides 32.
fn is_unlisted(w: &Memory, of: u32) -> bool {
    let size = resized(w, of);
    (size == 0) | (rest(32, size) != 0)
}

// "Own steps count accepted steps of the call, staying at 65,535."
pub fn own_after(w: &Memory) -> u32 {
    let own = get(w, OWN);
    either(own < 65535, plus(own, 1), 65535)
}

// Word j of the task's record after the line: what the letters of the table stand for. 33: "filled to 36; else i is that place's number". 51: "insert and
// remove set b to t's place i .., a resize adds 1 to i". A start sets the call (w), the tag (a) and the line (L).
pub fn becomes(w: &Memory, j: usize) -> u32 {
    match cell(w, BECOMES + j % 13) {
        b'0' => 0,
        b'1' => 1,
        b'w' => get(w, WHAT),
        b'a' => get(w, ASKED_TAG),
        b'L' => next_line(w),
        b'o' => own_after(w),
        b'v' => seen(w),
        b'e' => either(seen(w) == 0, place_number(w), get(w, I)),
        b'+' => plus(get(w, I), either(4 <= get(w, CALL), 1, 0)),
        b'x' => either(4 <= get(w, CALL), 0, seen(w)),
        _ => get(w, MINE + j % 13),
    }
}

// What the word looked at becomes, the same where the table says nothing. "28: if the head is t the new node becomes head": its number is 1 less than its
// place. "50 puts it in t's place i if still empty."
pub fn stored(w: &Memory) -> u32 {
    let v = seen(w);
    match cell(w, STORES) {
        b'0' => 0,
        b'N' => less_1(either(v == get(w, AT_T), get(w, NEW_NODE), v)),
        b'B' => either(v == 0, get(w, NEW_BUCKET), v),
        _ => get(w, look_at(w)),
    }
}

// Which of the row's next lines: the first where what the line sees is filled, else the second; for line 20 the first if the size is to be a listed one.
// 40: "if b is filled or s is none, to 51; if t is twice s, to 43; else 46". 51: "insert and remove .. go to 36, a resize adds 1 to i and goes to 39 or,
// after the last, to 24".
fn way(w: &Memory) -> u32 {
    let size = node(w, get(w, AT_T), 0);
    match cell(w, WAY) {
        b'?' => either(seen(w) == 0, 1, 0),
        b'l' => either(is_unlisted(w, seen(w)), 1, 0),
        b's' => {
            let s = seen(w);
            let half = node(w, s, 0);
            let way = either(size == plus(half, half), 1, 2);
            either((get(w, AT_B) != 0) | (s == 0), 0, way)
        }
        b'r' => {
            let way = either(plus(get(w, I), 1) < size, 1, 2);
            either(4 <= get(w, CALL), way, 0)
        }
        _ => 0,
    }
}

// The next line, 0 where the call ends.
pub fn next_line(w: &Memory) -> u32 {
    let column = NEXT + (way(w) % 3) as usize * 3;
    (cell(w, column) % 16) as u32 * 10 + (cell(w, column + 1) % 16) as u32
}

// "8 of the step, 7", or 0 for none. 8: "its line goes through an empty place", "uses a place at or past its node's size" ("Lines 39, 50 and 51 use t's place
// i, 46 and 47 the named places of s", and these they look at), "makes a node of an unlisted size", or with so many tags made "needs a 65th tag in a bucket".
pub fn line_refusal(w: &Memory, made: u32) -> u32 {
    let row = get(w, ROW);
    let missing = (named(w, THROUGH) == 0) | (named(w, THROUGH_TOO) == 0);
    let n = place_number(w);
    let past = (n != 0) & (node(w, named(w, LOOK_OF), 0) <= n);
    let unlisted = (row == 27) & is_unlisted(w, get(w, AT_T));
    let none = ((row == 27) | (row == 49)) & (get(w, FREE) == 0);
    either(
        missing | unlisted | past | (64 < made),
        8,
        either(none, 7, 0),
    )
}

// The answer where the call ends. 1 yes, 2 no, 3 full, 4 done, 5 lost, 6 limit. "At line 36 an insert of a tag that its unfrozen bucket has now ends no,
// whatever the count; full is left for absent tags." "remove takes it out and ends yes, or ends no"; a contains "ends with yes or no".
pub fn answer(w: &Memory) -> u32 {
    let tag = get(w, TAG) as u64;
    match get(w, ROW) {
        20 => 6,
        28 => either(head(w) == get(w, AT_T), 4, 5),
        _ => {
            let has = smallest(w, TAGS_OF_B, tag) == tag;
            let new = either(64 <= count(w, LISTED_TAGS), 3, 1);
            either(get(w, CALL) == 1, either(has, 2, new), either(has, 1, 2))
        }
    }
}

// The set of tags that a call makes: a list the listed tags, a show those of the bucket, line 36 b as it will be, line 49 the new bucket. Line 36 changes
// b if it may change and the answer is yes.
pub fn set_made(w: &Memory) -> u32 {
    let row = get(w, ROW);
    match row {
        6 | 7 | 49 => row,
        36 => either((seen(w) != 0) & (answer(w) == 1), get(w, CALL), 36),
        _ => NO_TAGS,
    }
}

// The refusal, and what n tags that are made give: "A bucket's add and remove now also give the number of tags it holds afterwards, and an ended insert or
// remove hands that number on, full and no included", that number plus 1, 0 where the line is not 36; then the first two words of the record that is made,
// of a new node "twice or half the size, predecessor t", of a bucket 1 or, of b, what it is, and the count.
pub fn made(w: &Memory, why: u32, n: u32) -> [u32; 4] {
    let t = get(w, AT_T);
    match get(w, ROW) {
        27 => [why, 0, resized(w, t), t],
        36 => [why, plus(n, 1), seen(w), n],
        _ => [why, 0, 1, n],
    }
}
