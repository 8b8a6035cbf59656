// Refusal 8, general part. Memory is sound if no word of it is bad.
use super::slices::get;
use crate::lines::{TEST, entry, is_strange};
use crate::words::{
    FLAG, OPERATIONS, OWN, STATE_END, T, TASKS, V, VERSION_WORDS, VERSIONS, operation,
};
use reference_words::words::less_1;

// "if T, H, B or a slice length is wrong"
fn bad_shape(w: &[u32]) -> bool {
    let t = get(w, T);
    let v = get(w, V);
    let n = get(w, VERSION_WORDS) as usize;
    (t == 0) | (8 < t) | (v == 0) | (1024 < v) | (n != (v as usize) * 66)
}

// Word j of operation n: one never invoked is zeros, and an invoke of it ends true only once its prio is infinite.
fn bad_operation_word(w: &[u32], n: usize, j: usize, x: u32) -> bool {
    let first = OPERATIONS + n % 64 * 5;
    let never = (get(w, first) == 0) | ((j == 4) & (get(w, first + 3) == 0));
    (never & (x != 0)) | ((j == 0) & (2 < x))
}

// The line that called HELPFINISH: a line of the call while HELPFINISH runs, otherwise none.
fn bad_back(call: u32, line: u32, back: u32) -> bool {
    if line < 129 {
        return back != 0;
    }
    (entry(back, TEST) != b'h') | is_strange(call, back)
}

// Word j of task k. "a record number is past its pool; .. a running task's line is not one of its call's, .. or a resize has a tag; a task from T on
// runs; an idle task's record is not zeros and empty places". An invoke has an operation of its type; "A get response is started only
// after an invoke of that operation has ended true"; others have none. Own steps are 16 bits of their word.
fn bad_task_word(w: &[u32], k: usize, j: usize, x: u32) -> bool {
    let first = TASKS + k % 8 * 9;
    let call = get(w, first + 1);
    let kind = operation(w, x, 0);
    let bad_invoke = (call < 3) & (kind != call);
    let bad_get = (call == 5) & (operation(w, x, 4) == 0);
    if get(w, first) == 0 {
        return (x != 0) & ((j != OWN) | (x % 65536 != 0));
    }
    match j {
        0 => (get(w, T) as usize) <= k,
        2 => bad_invoke | bad_get | ((call == 3) & (x != 0)) | ((call == 4) & (x != 0)),
        3 => (x != 0) & (call != 4),
        4 => is_strange(call, x) | (b'9' < entry(x, TEST)),
        5 => bad_back(call, get(w, first + 4), x),
        7 => get(w, V) < x,
        8 => (x != 0) & (operation(w, less_1(x), 0) == 0),
        _ => false,
    }
}

// Word j of version k. "8, also for a version's first word over 65 or of an operation never invoked"; its count and tags as a bucket's.
fn bad_version_word(w: &[u32], k: usize, j: usize, x: u32) -> bool {
    let first = VERSIONS + k % 1025 * 66;
    let past = (get(w, first + 1) as usize) + 2 <= j;
    let bad_op = (1 < x) & (operation(w, less_1(less_1(x)), 0) == 0);
    let falls = (2 < j) & (x <= get(w, first + (j % 66 + 65) % 66));
    let bad_tag = (past & (x != 0)) | (!past & falls);
    ((j == 0) & bad_op) | ((j == 1) & (64 < x)) | ((1 < j) & bad_tag)
}

fn bad_word(w: &[u32], at: usize) -> bool {
    let x = get(w, at);
    if at < OPERATIONS {
        return (1 < at) & (at < FLAG) & (get(w, V) <= x);
    }
    if at < TASKS {
        return bad_operation_word(w, (at - OPERATIONS) / 5, (at - OPERATIONS) % 5, x);
    }
    if at < VERSIONS {
        return bad_task_word(w, (at - TASKS) / 9, (at - TASKS) % 9, x);
    }
    bad_version_word(w, (at - VERSIONS) / 66, (at - VERSIONS) % 66, x)
}

fn bad_among(w: &[u32], from: usize, end: usize) -> bool {
    for at in from..end {
        if bad_word(w, at) {
            return true;
        }
    }
    false
}

// Where T, the number of versions or a length is wrong nothing else is looked at.
pub fn spoilt(w: &[u32]) -> bool {
    bad_shape(w)
        || bad_among(w, 0, STATE_END)
        || bad_among(w, VERSIONS, VERSIONS + get(w, VERSION_WORDS) as usize)
}
