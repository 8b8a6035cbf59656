// The words of one memory, and those of its records. Past its end a read gives 0 and a store changes nothing (`reference_words`).
use super::slices::get;
use reference_words::words::plus;

// The state. From OPERATIONS on 64 operations of 5 words: type (0 never invoked, 1 INS, 2 REM), key, resp, prio (1 for infinite), whether an invoke of
// it has ended true. From TASKS on eight tasks of 9 words. A place is a version's number plus 1, or 0 for empty.
pub const T: usize = 0;

pub const V: usize = 1;

pub const NODE: usize = 2;

pub const LAST: usize = 3;

pub const FLAG: usize = 4;

pub const OPERATIONS: usize = 5;

pub const TASKS: usize = 325;

pub const STATE_END: usize = 397;
// The reply: kind, value, own steps. How many words of versions are lent. What is asked. Then the versions, with room for one more than there can be.
pub const REPLY: usize = 400;

pub const VERSION_WORDS: usize = 404;

pub const WHAT: usize = 405;

pub const ASKED_K: usize = 406;

pub const ASKED_N: usize = 407;

pub const ASKED_TAG: usize = 408;

pub const VERSIONS: usize = 420;
// The words as they will be.
pub const NEXT: usize = 70000;

pub const END: usize = 140000;
// The words of a task: whether it runs, its call (1 to 5, as in WHAT), operation, tag and line, the line that called HELPFINISH, own steps, o as a place, op
// of HELPFINISH as its number plus 1.
pub const CALL: usize = 1;

pub const OP: usize = 2;

pub const TAG: usize = 3;

pub const LINE: usize = 4;

pub const BACK: usize = 5;

pub const OWN: usize = 6;

pub const O: usize = 7;

pub const HELPED: usize = 8;

// A word of the task that is asked for.
pub fn mine(w: &[u32], j: usize) -> u32 {
    get(w, TASKS + (get(w, ASKED_K) % 8) as usize * 9 + j % 9)
}

// Word j of the version in a place, and of an operation.
pub fn version(w: &[u32], place: u32, j: u32) -> u32 {
    if place == 0 || 65 < j {
        return 0;
    }
    get(w, VERSIONS + (place as usize - 1) * 66 + j as usize)
}

pub fn operation(w: &[u32], n: u32, j: u32) -> u32 {
    if 63 < n {
        return 0;
    }
    get(w, OPERATIONS + (n as usize) * 5 + j as usize)
}

// The place of the version that the bucket has.
pub fn node(w: &[u32]) -> u32 {
    plus(get(w, NODE), 1)
}
