// A second implementation of the cooperative bucket of Figure 6 (request U10 of paper 02), to be compared word by word with the first.
// Its shape: state, versions, what is asked and the reply are words of one memory (words.rt has their addresses), and for each word a function says what it
// becomes, from memory as it was; only `act` stores. The figure's lines are the rows of a table (lines.rt). Spoilt memory is found word by word (faults.rt),
// and sets of tags by counting (sets.rt). No function has a requirement: any words and numbers may be lent.
#![tactic(auto)]

mod faults;
mod lines;
mod sets;
pub mod slices;
pub mod words;

use lines::{THROUGH, entry};
use reference_words::words::{SPAN, either, less_1, plus};
use slices::{copy, get, put};
use words::{
    ASKED_K, ASKED_N, ASKED_TAG, BACK, CALL, FLAG, HELPED, LAST, LINE, NEXT, NODE, O, OP,
    OPERATIONS, OWN, REPLY, STATE_END, T, TAG, TASKS, V, VERSION_WORDS, VERSIONS, WHAT, mine, node,
    operation, version,
};

// "Opening takes T as before and 1 to 1,024 versions, else 1 or 3."
fn opening_refusal(w: &[u32]) -> u32 {
    let t = get(w, ASKED_K);
    let n = get(w, VERSION_WORDS);
    let bad = (n == 0) | (67584 < n) | (n % 66 != 0);
    either((t == 0) | (8 < t), 1, either(bad, 3, 0))
}

// "the first invoke of a number fixes its type and tag, and an invoke with others, or of a number past 63, gives 5"; "A get response is started only
// after an invoke of that operation has ended true, and otherwise gives 5."
fn start_refusal(w: &[u32], what: u32) -> u32 {
    let n = get(w, ASKED_N);
    let kind = operation(w, n, 0);
    let other = (kind != what) | (operation(w, n, 1) != get(w, ASKED_TAG));
    let bad_invoke = (63 < n) | ((kind != 0) & other);
    let bad_get = operation(w, n, 4) == 0;
    either(((what < 3) & bad_invoke) | ((what == 5) & bad_get), 5, 0)
}

// "8 of the step, 7": "its line goes through an empty place", "needs a 65th tag", then 7. "Line 140 takes a version only if the bucket still has o."
fn line_refusal(w: &[u32]) -> u32 {
    let line = mine(w, LINE);
    let no_o = (entry(line, THROUGH) == b'o') & (mine(w, O) == 0);
    let no_op = (entry(line, THROUGH + 1) == b'p') & (mine(w, HELPED) == 0);
    let takes = sets::still_has(w);
    let full = takes & (64 < sets::made(w, 1));
    let none = takes & (sets::free_version(w, get(w, V)) == 0);
    either(no_o | no_op | full, 8, either(none, 7, 0))
}

// "Start: 8, 4, 5. Step: 8, 4, 6, 8 of the step, 7."
fn refusal(w: &[u32], what: u32) -> u32 {
    if what == 6 {
        return opening_refusal(w);
    }
    if faults::spoilt(w) {
        return 8;
    }
    if get(w, T) <= get(w, ASKED_K) {
        return 4;
    }
    let idle = mine(w, 0) == 0;
    if what == 0 {
        return either(idle, 6, line_refusal(w));
    }
    either(idle, start_refusal(w, what), 5)
}

// The line that follows: 0 where the call ends, and of an opening.
fn next_line(w: &[u32]) -> u32 {
    match get(w, WHAT) {
        0 => lines::step_after(lines::figure_line(w)),
        1 | 2 => 95,
        3 => 109,
        4 => 112,
        5 => 117,
        _ => 0,
    }
}

// 113 to 116: "if op ≠ nil ∧ op ≠ ⊥ ∧ op.key = k then return op.type = INS", else "k ∈ o.set".
fn is_member(w: &[u32]) -> bool {
    let tag = mine(w, TAG);
    let o_op = version(w, mine(w, O), 0);
    let op = less_1(less_1(o_op));
    if (1 < o_op) & (operation(w, op, 1) == tag) {
        return operation(w, op, 0) == 1;
    }
    sets::below(w, tag as u64) != sets::below(w, tag as u64 + 1)
}

// Where the call ends: 1 yes, 2 no; of a freeze the number of the version whose set it gives.
fn answer(w: &[u32]) -> u32 {
    let op = mine(w, OP);
    match mine(w, LINE) {
        127 => get(w, NODE),
        107 => either(operation(w, op, 3) != 0, 1, 2),
        113 => either(is_member(w), 1, 2),
        117 => either(operation(w, op, 2) != 0, 1, 2),
        _ => 1,
    }
}

// "Own steps count accepted steps of the call, staying at 65,535."
fn own_after(w: &[u32]) -> u32 {
    let own = mine(w, OWN) % 65536;
    either(own < 65535, plus(own, 1), own)
}

// Word j of the task's record after a start: the call, its operation or tag, and the first line.
fn started(w: &[u32], j: usize, what: u32) -> u32 {
    match j {
        0 => 1,
        1 => what,
        2 => either((what == 3) | (what == 4), 0, get(w, ASKED_N)),
        3 => either(what == 4, get(w, ASKED_TAG), 0),
        4 => next_line(w),
        _ => 0,
    }
}

// Word j of the task's record after a step that does not end the call. o is kept up to the last line that needs it, and op of HELPFINISH, which 130 sets,
// as long as there is an o.
fn stepped(w: &[u32], j: usize, next: u32) -> u32 {
    let line = mine(w, LINE);
    let o = mine(w, O);
    let needed = entry(next, THROUGH);
    let reads = entry(line, THROUGH) == b'n';
    let stays = reads | (needed == b'o') | (needed == b'k');
    let op = either(line == 130, less_1(version(w, o, 0)), mine(w, HELPED));
    match j {
        LINE => next,
        BACK => either(
            next == 129,
            lines::figure_line(w),
            either(next < 129, 0, mine(w, BACK)),
        ),
        OWN => own_after(w),
        O => either(reads, node(w), either(stays, o, 0)),
        HELPED => either(stays, op, 0),
        _ => mine(w, j),
    }
}

// "A task that runs nothing has a record of zeros and empty places."
fn task_after(w: &[u32], k: usize, j: usize, x: u32) -> u32 {
    let what = get(w, WHAT);
    let next = next_line(w);
    if (get(w, ASKED_K) as usize) != k {
        return x;
    }
    if what != 0 {
        return started(w, j, what);
    }
    either(next == 0, 0, stepped(w, j, next))
}

// Word j of operation n: an invoke's type and key; 138 op.resp, which says whether the operation changes the set (133, 136), 139 op.prio; an invoke's end
// with true.
fn operation_after(w: &[u32], n: u32, j: usize, x: u32) -> u32 {
    let what = get(w, WHAT);
    let line = mine(w, LINE);
    if (0 < what) & (what < 3) & (n == get(w, ASKED_N)) & (j < 2) {
        return either(j == 0, what, get(w, ASKED_TAG));
    }
    let sets = ((line == 138) & (j == 2)) | ((line == 139) & (j == 3));
    if sets & (plus(n, 1) == mine(w, HELPED)) {
        return either(
            j == 3,
            1,
            either(sets::made(w, 1) != version(w, mine(w, O), 1), 1, 0),
        );
    }
    if j == 4 && ends_true(w, n) { 1 } else { x }
}

fn ends_true(w: &[u32], n: u32) -> bool {
    let invokes = (mine(w, 0) != 0) & (mine(w, CALL) < 3) & (mine(w, OP) == n);
    invokes & (next_line(w) == 0) & (answer(w) == 1)
}

// Of the first words: line 109 sets the flag, 140 the bucket's version and the one last taken.
fn header_after(w: &[u32], at: usize, x: u32, place: u32) -> u32 {
    match at {
        NODE | LAST => either(place == 0, x, less_1(place)),
        FLAG => either(mine(w, LINE) == 109, 1, x),
        _ => x,
    }
}

// Word j of the version in a place: the one that 140 takes, and o.op in the CAS of 102 and 123.
fn version_after(w: &[u32], of: u32, j: u32, x: u32, place: u32) -> u32 {
    if of == place {
        return sets::made(w, j);
    }
    if (of != mine(w, O)) | (j != 0) | (x != 0) {
        return x;
    }
    match mine(w, LINE) {
        102 => plus(mine(w, OP), 2),
        123 => 1,
        _ => x,
    }
}

// "A refused opening gives a state of all zeros." Otherwise the versions are zeros too, the bucket has version 0, which is also the one last taken, and no
// task runs.
fn opened(w: &[u32], at: usize, x: u32, why: u32) -> u32 {
    if why != 0 {
        return either(at < VERSIONS, 0, x);
    }
    match at {
        T => get(w, ASKED_K),
        V => get(w, VERSION_WORDS) / 66,
        _ => 0,
    }
}

// The reply: kind, value, own steps. Kind 0: the task is at line `value` (an opening: 0). 1: the call ended with answer `value`. 2: refused with number
// `value`. 3: a freeze ended, with version `value`.
fn reply_after(w: &[u32], j: usize, why: u32) -> u32 {
    let next = next_line(w);
    if why != 0 {
        return either(j == 0, 2, either(j == 1, why, 0));
    }
    if (get(w, WHAT) != 0) | (next != 0) {
        return either(j == 1, next, 0);
    }
    match j {
        0 => either(mine(w, LINE) == 127, 3, 1),
        1 => answer(w),
        _ => own_after(w),
    }
}

// What a word becomes: a refusal keeps every word, but for the state of an opening.
fn word_after(w: &[u32], at: usize, why: u32, place: u32) -> u32 {
    let x = get(w, at);
    if STATE_END <= at && at < VERSIONS {
        return if REPLY <= at && at < REPLY + 3 {
            reply_after(w, at - REPLY, why)
        } else {
            x
        };
    }
    if get(w, WHAT) == 6 {
        return opened(w, at, x, why);
    }
    if why != 0 {
        return x;
    }
    changed(w, at, x, place)
}

fn changed(w: &[u32], at: usize, x: u32, place: u32) -> u32 {
    if at < OPERATIONS {
        return header_after(w, at, x, place);
    }
    if at < TASKS {
        return operation_after(
            w,
            ((at - OPERATIONS) / 5 % 64) as u32,
            (at - OPERATIONS) % 5,
            x,
        );
    }
    if at < VERSIONS {
        return task_after(w, (at - TASKS) / 9, (at - TASKS) % 9, x);
    }
    version_after(
        w,
        ((at - VERSIONS) / 66 % 1025 + 1) as u32,
        ((at - VERSIONS) % 66) as u32,
        x,
        place,
    )
}

fn fill(w: &mut [u32], why: u32, place: u32, end: usize) {
    for at in 0..end {
        let x = word_after(w, at, why, place);
        put(w, NEXT + at % SPAN, x);
    }
}

// What WHAT asks: a step of task ASKED_K (0), the start of an invoke of operation ASKED_N that inserts ASKED_TAG (1) or removes it (2), of a freeze (3), of
// a member test of ASKED_TAG (4), of a get response of operation ASKED_N (5), an opening with ASKED_K tasks (6).
pub fn act(w: &mut [u32]) {
    let why = refusal(w, get(w, WHAT));
    let takes = (why == 0) & sets::still_has(w);
    let place = sets::free_version(w, either(takes, get(w, V), 0));
    let end = VERSIONS + get(w, VERSION_WORDS) as usize;
    fill(w, why, place, end);
    copy(w, NEXT, 0, end);
}
