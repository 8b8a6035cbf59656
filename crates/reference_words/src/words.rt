// One memory of words, and total ways to reach a word of it, or of any slice: a read past the end gives 0, and a store past the end changes
// nothing. So no words whatever can break the code above.

// The state. From RECORDS on eight tasks of 13 words: running, call, tag, line, i, own steps, t, s, b, m, n, new node, new bucket.
pub const T: usize = 0;

pub const VERSION: usize = 1;

pub const H: usize = 2;

pub const B: usize = 3;

pub const HEAD: usize = 4;

pub const LAST_NODE: usize = 5;

pub const LAST_BUCKET: usize = 6;

pub const RECORDS: usize = 7;

// The task chosen last, after the tasks.
pub const CHOSEN: usize = 111;

// 1 where the yard was opened under the new rule for tag 0, else 0.
pub const ZERO_WITHDRAWN: usize = 112;

pub const STATE_END: usize = 113;
// The reply: kind, value, own steps, a bucket's tags plus 1, the task of a turn plus 1. Then words that are lent to a list, and the lengths of the two
// slices that are lent.
pub const REPLY: usize = 120;

pub const LENT: usize = 125;

pub const NODE_WORDS: usize = 198;

pub const BUCKET_WORDS: usize = 199;
// The two pools, each with room for one record more than there can be.
pub const NODES: usize = 200;

pub const BUCKETS: usize = 2410;

pub const MEMORY_END: usize = 70060;
// What a call works with: the task that is meant; where its record is, NOWHERE for none; the row of the table; the record that would be taken, 0 for
// none; the refusal's number, 0 for none; the tags of a bucket afterwards plus 1; a record that is made; a copy of the record of the task. Then what is asked.
pub const TASK: usize = 70060;

pub const RECORD: usize = 70061;

pub const ROW: usize = 70062;

pub const FREE: usize = 70063;

pub const WHY: usize = 70064;

pub const AFTERWARDS: usize = 70065;

pub const MADE: usize = 70066;

pub const MINE: usize = 70140;

pub const CALL: usize = 70141;

pub const TAG: usize = 70142;

pub const I: usize = 70144;

pub const OWN: usize = 70145;

pub const AT_T: usize = 70146;

pub const AT_S: usize = 70147;

pub const AT_B: usize = 70148;

pub const AT_M: usize = 70149;

pub const AT_N: usize = 70150;

pub const NEW_NODE: usize = 70151;

pub const NEW_BUCKET: usize = 70152;

pub const WHAT: usize = 71260;

pub const ASKED_K: usize = 71261;

pub const ASKED_TAG: usize = 71262;

pub const ASKED_RULE: usize = 71263;

pub const END: usize = 71264;
// The address of no word, past the end of any memory that is lent, and a bound on addresses.
pub const NOWHERE: usize = 1000000;

pub const SPAN: usize = 1048576;

pub type Memory = [u32; 150060];

pub fn get(w: &[u32], at: usize) -> u32 {
    if at < w.len() { w[at] } else { 0 }
}

pub fn put(w: &mut [u32], at: usize, v: u32) {
    if at < w.len() {
        w[at] = v;
    }
}

// These words in the place of those from `to` on.
pub fn put_words(w: &mut [u32], to: usize, words: &[u32]) {
    let a = to % SPAN;
    for (i, v) in words.iter().enumerate() {
        put(w, a + i % SPAN, *v);
    }
}

// So many words are copied. From NOWHERE they are zeros, and to NOWHERE they change nothing.
pub fn copy(w: &mut [u32], from: usize, to: usize, count: usize) {
    let a = from % SPAN;
    let b = to % SPAN;
    let n = count % SPAN;
    for i in 0..n {
        let v = get(w, a + i);
        put(w, b + i, v);
    }
}

// Where word j of task k's record is.
pub fn field_at(k: u32, j: u32) -> usize {
    RECORDS + (k as usize) * 13 + j as usize
}

// The letter of a number, in a table with a letter for each number from 0 on.
pub fn letter(table: &[u8], n: usize) -> u8 {
    if n < table.len() { table[n] } else { b'.' }
}

// x mod d, and 0 for d = 0.
pub fn rest(x: u32, d: u32) -> u32 {
    if d == 0 { 0 } else { x % d }
}

pub fn either(yes: bool, a: u32, b: u32) -> u32 {
    if yes { a } else { b }
}

// A sum of numbers below a million, as sizes, places and counts are.
pub fn plus(x: u32, y: u32) -> u32 {
    x % 1000000 + y % 1000000
}

// x - 1, and 0 for 0.
pub fn less_1(x: u32) -> u32 {
    if x == 0 { 0 } else { x - 1 }
}
