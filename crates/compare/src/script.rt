// A script of calls that a reader can follow: the cases of paper 01 that are not marked P, hand-picked words, spoilt one or a few at a time, and
// what random schedules are drawn from. It is text: numbers, each followed by what is done with it.
//
//   n b        so many node words, so many bucket words from now on
//   t          the tag of the starts that follow
//   V          the version of the openings that follow, and where the random calls that follow are counted
//   N          0 if the openings that follow are under the old rule for tag 0, else under the new one
//   o          an opening with so many tasks
//   i r c g h  a start of insert, remove, contains, grow or shrink for this task
//   s          a step of this task
//   u          a turn
//   l v        a list into so many words, a show of this bucket
//   = @ &      the number of a word of the state, of the nodes, of the buckets
//   ,          the value that this word gets; another value goes to the word after it
//   k p        memory is kept; memory is put back as it was kept
//   ; .        goes to the first line of the script; goes back from there
//   #          a comment, to the end of the line
//   X          the pseudo-random number that others follow
//   x          so many calls of random schedules (draw.rt): of W calls each for T tasks; of 64 calls U are turns; of 100 starts R are resizes; of 100 others
//              D are removes and those up to L contains; G tags, multiples of 7; of 128 steps of a contains at line 15 Z go to another task
use crate::draw;
use crate::vars::{
    BACK, COUNTED, KEPT, LEFT, NAMED, NEXT, NUMBER, NUMBERS, PLACE, QUIET, SEED, TAG_ASKED, VALUE,
    WAY,
};
use reference_words::words::{
    ASKED_RULE, BUCKET_WORDS, BUCKETS, CHOSEN, MEMORY_END, Memory, NODE_WORDS, NODES, RECORDS,
    WHAT, ZERO_WITHDRAWN, copy, either, get, plus, put, put_words,
};

// A number with a digit more, 0 after any other byte.
fn longer(x: u32, b: u8) -> u32 {
    let digit = (b as u64 + 208) % 256;
    either(
        digit < 10,
        (((x as u64) * 10 + digit) % 4294967296) as u32,
        0,
    )
}

// The call that a byte means, 10 for none, 11 for the end.
fn what(b: u8) -> u32 {
    match b {
        b's' => 0,
        b'i' => 1,
        b'r' => 2,
        b'c' => 3,
        b'g' => 4,
        b'h' => 5,
        b'l' => 6,
        b'v' => 7,
        b'o' => 8,
        b'u' => 9,
        0 => 11,
        _ => 10,
    }
}

// A value as a state can have it in a word: `running` and the rule for tag 0 are 0 or 1, and own steps are below 65,536.
fn fitting(at: usize, v: u32) -> u32 {
    let j = (at % 1000 + 13 - RECORDS) % 13;
    let in_record = (RECORDS <= at) & (at < CHOSEN);
    let truth = (in_record & (j == 0)) | (at == ZERO_WITHDRAWN);
    either(
        truth,
        either(v == 0, 0, 1),
        either(in_record & (j == 5), v % 65536, v),
    )
}

// Memory is kept for a k, and put back as it was kept for a p.
fn move_memory(m: &mut Memory) {
    match (m[WAY] % 256) as u8 {
        b'k' => copy(m, 0, KEPT, MEMORY_END),
        b'p' => copy(m, KEPT, 0, MEMORY_END),
        _ => {}
    }
}

// The words of the script, or those of random calls, become these. Then memory moves and a word is set, as they say.
pub fn change(m: &mut Memory, to: usize, words: &[u32]) {
    put_words(m, to, words);
    move_memory(m);
    let at = get(m, PLACE) as usize;
    let v = get(m, VALUE);
    put(m, at, fitting(at, v));
}

// The address of the word that a byte sets with the number before it.
fn target(m: &Memory, b: u8) -> u32 {
    match b {
        b'n' => NODE_WORDS as u32,
        b'b' => BUCKET_WORDS as u32,
        b'X' => SEED as u32,
        b'N' => ASKED_RULE as u32,
        b'x' => LEFT as u32,
        b',' => get(m, NAMED),
        _ => NUMBERS as u32 + b as u32,
    }
}

fn named(m: &Memory, b: u8, n: u32) -> u32 {
    match b {
        b'=' => n,
        b'@' => plus(NODES as u32, n),
        b'&' => plus(BUCKETS as u32, n),
        b',' => plus(get(m, NAMED), 1),
        _ => get(m, NAMED),
    }
}

// The byte after this one, and the byte to go back to: `;` goes to the first byte, and `.` back.
fn jump(m: &Memory, b: u8) -> [u32; 2] {
    let on = plus(get(m, NEXT), 1);
    let to = get(m, BACK);
    match b {
        b';' => [0, on],
        b'.' => [either(to == 0, on, to), 0],
        _ => [on, to],
    }
}

// A byte as it is heard: a blank for all of a comment.
fn heard(quiet: u32, byte: u8) -> u8 {
    if quiet == 0 { byte } else { b' ' }
}

// What is asked and the words of the script after a byte. An opening has a version, a start a tag.
fn words_after(m: &Memory, byte: u8) -> [u32; 13] {
    let ends = (byte == 10) | (byte == 0);
    let quiet = either(byte == b'#', 1, either(ends, 0, get(m, QUIET)));
    let b = heard(quiet, byte);
    let n = get(m, NUMBER);
    let to = jump(m, b);
    [
        what(b),
        n,
        either(b == b'o', get(m, COUNTED), get(m, TAG_ASKED)),
        get(m, ASKED_RULE),
        to[0],
        to[1],
        longer(n, b),
        quiet,
        named(m, b, n),
        0,
        b as u32,
        target(m, b),
        n,
    ]
}

// The next byte of the text, 0 at its end. It is printed, but for the first line gone to.
fn next_byte(text: &[u8], m: &Memory) -> u8 {
    let at = get(m, NEXT) as usize;
    if text.len() <= at {
        return 0;
    }
    if get(m, BACK) == 0 {
        io::write_all(1, &[text[at]]);
    }
    text[at]
}

// The next call: random calls first, then the next byte of the text.
pub fn next(text: &[u8], m: &mut Memory) {
    if m[LEFT] != 0 {
        return draw::random(m);
    }
    let b = next_byte(text, m);
    let a = words_after(m, b);
    change(m, WHAT, &a)
}
