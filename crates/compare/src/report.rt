// What is counted and printed, by the script's V: each output's kind, line, answer or refusal, the turns of each task, and the differences found.
use crate::vars::{
    CALLS, COUNTED, COUNTS, DIFFERENCES, DRAWN, EXCURSION, LISTS, NOTHING, SHOWS, VERSION_COUNTS,
    WITHDRAWN,
};
use reference_words::words::{
    Memory, REPLY, SPAN, WHAT, ZERO_WITHDRAWN, either, get, less_1, letter, plus, put,
};

// The texts that `say` prints, by number. The first four stand before a line, an answer, a refusal and a turn with nothing running.
const TURN: u32 = 4;

const TAGS_LEFT: u32 = 5;

const DIFFERS: u32 = 6;

const VERSION_1: u32 = 7;

const VERSION_2: u32 = 8;

const TASK_0: u32 = 9;

const ALL_COUNTS: u32 = 10;

const NO_TEXT: u32 = 11;

// Word x of a row of counts, seven rows later in spoilt memory.
fn in_row(m: &Memory, r: u32, x: u32) -> u32 {
    plus(r, either(get(m, EXCURSION) == 0, 0, 7)) % 16 * 64 + x % 64
}

// Where an output is counted: a list and a show that are not refused apart.
fn place(m: &Memory) -> u32 {
    let what = get(m, WHAT);
    let kind = get(m, REPLY);
    let row = in_row(m, kind, get(m, REPLY + 1));
    let apart = (kind == 0) & ((what == 6) | (what == 7));
    either(apart, either(what == 6, LISTS, SHOWS), row)
}

// Where a turn that names a task is counted once more, by its task: accepted, refused with 7, or refused with 8 of the step.
fn turn_place(m: &Memory) -> u32 {
    let of = get(m, REPLY + 4);
    let refused = either(get(m, REPLY + 1) == 7, 5, 6);
    let row = either(get(m, REPLY) == 2, refused, 4);
    either(of == 0, NOTHING, in_row(m, row, less_1(of)))
}

// All that a random call is counted as.
fn counted(m: &Memory, same: bool, j: u32) -> u32 {
    let withdrawn = (get(m, WHAT) == 8) & (get(m, ZERO_WITHDRAWN) != 0);
    match j {
        0 => place(m),
        1 => turn_place(m),
        2 => CALLS,
        3 => either(same, NOTHING, DIFFERENCES),
        _ => either(withdrawn, WITHDRAWN, NOTHING),
    }
}

// Where count i is of a V of the script.
fn count_at(v: u32, i: u32) -> usize {
    COUNTS + (v % 4) as usize * VERSION_COUNTS + i as usize % VERSION_COUNTS
}

fn count(m: &mut Memory, same: bool) {
    let v = get(m, COUNTED);
    for j in 0..5 {
        let at = count_at(v, counted(m, same, j));
        let n = plus(get(m, at), 1);
        put(m, at, n);
    }
}

// A number that only some replies have.
fn optional(m: &Memory, name: u32, plus_1: u32) {
    if 0 < plus_1 {
        say(m, name, 0);
        decimal(plus_1 - 1);
    }
}

// After a call of the script. The task of a turn comes first, and last how many tags an ended insert or remove left in its bucket.
fn outcome(m: &Memory, same: bool) {
    optional(m, TURN, get(m, REPLY + 4));
    say(m, get(m, REPLY), 0);
    decimal(get(m, REPLY + 1));
    optional(m, TAGS_LEFT, get(m, REPLY + 3));
    say(m, either(same, NO_TEXT, DIFFERS), 0);
}

// After a call, in which all words are the same or not.
pub fn after(m: &mut Memory, same: bool) {
    if m[DRAWN] == 0 {
        return outcome(m, same);
    }
    count(m, same)
}

fn decimal(n: u32) {
    io::print_decimal(1, n as u64);
}

fn cell(i: u32, n: u32) {
    if n != 0 {
        io::write_all(1, b" ");
        decimal(i);
        io::write_all(1, b":");
        decimal(n);
    }
}

// The counts from an address on, those that are not 0, each as number:count with the number counted from there.
fn row(m: &Memory, at: usize) {
    let first = at % SPAN;
    for i in 0..64 {
        cell(i, get(m, first + i as usize));
    }
}

// A byte of a text, or the counts that stand for a capital letter: A to N are rows (r), each count with its number, but of D and K only the first count (1); from O on
// lists, shows, calls, differences and openings under the new rule; T is the openings, which are counted at line 0, the first of A.
fn mark(m: &Memory, b: u8, v: u32) {
    let r = (b as u32 + 191) % 256;
    let at = count_at(v, r % 19 * 64);
    match letter(b"rrr1rrrrrr1rrr111111", r as usize) {
        b'r' => row(m, at),
        b'1' => decimal(get(m, at)),
        _ => {
            io::write_all(1, &[b]);
        }
    }
}

// Text n, with the counts of a V of the script. Each text ends at a |.
fn say(m: &Memory, n: u32, v: u32) {
    let texts =
        b" | end=| refuse=| running=| turn=|:| differs|version 1: |version 2: |task 0 of eight always refused by 7: |openings T, under the new rule S, calls Q
at lineA
ended (1 yes 2 no 3 full 4 done 5 lost 6 limit)B
refusedC
turns with nothing running D
turns accepted, by taskE
turns refused by 7, by taskF
turns refused by 8 of the step, by taskG
in spoilt memory:
at lineH
ended (1 yes 2 no 3 full 4 done 5 lost 6 limit)I
refusedJ
turns with nothing running K
turns accepted, by taskL
turns refused by 7, by taskM
turns refused by 8 of the step, by taskN
lists O
shows P
differences R
|";
    let mut k: u32 = 0;
    for b in texts {
        if (k == n) & (*b != b'|') {
            mark(m, *b, v);
        }
        k = plus(k, either(*b == b'|', 1, 0));
    }
}

// The counts of each version. Each schedule has one opening.
pub fn print(m: &Memory) {
    say(m, VERSION_1, 1);
    say(m, ALL_COUNTS, 1);
    say(m, VERSION_2, 2);
    say(m, ALL_COUNTS, 2);
    say(m, TASK_0, 3);
    say(m, ALL_COUNTS, 3);
}
