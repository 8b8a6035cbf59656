// What a call stores, word by word: the reply, the last one chosen, then what the call has changed.
use super::places::{bucket_at, node_at};
use super::sight::{answer, becomes, look_at, next_line, own_after, stored};
use super::table::SPOILT;
use super::taking::last_taken_at;
use reference_words::words::{
    AFTERWARDS, ASKED_K, ASKED_RULE, ASKED_TAG, AT_B, B, BUCKET_WORDS, BUCKETS, CHOSEN, FREE, H,
    LENT, MADE, Memory, NODE_WORDS, NODES, NOWHERE, RECORD, ROW, SPAN, STATE_END, T, TASK, VERSION,
    WHAT, WHY, ZERO_WITHDRAWN, either, get, less_1, plus, put,
};

// The reply begins with its kind. 0: the task is at a line, the next or the first; or it is a list or a show, with the count, or an opening. 1: the call ended.
fn accepted(w: &Memory, task: u32) -> [u32; 5] {
    let what = get(w, WHAT) % 9;
    let line = next_line(w);
    if (what == 0) & (line == 0) {
        return [1, answer(w), own_after(w), get(w, AFTERWARDS), task];
    }
    [0, either(what < 6, line, get(w, MADE + 1)), 0, 0, task]
}

// 2: the call is refused. 3: "If nothing runs it says idle". Last the task that a turn names, plus 1: the answer names the task that was chosen, whatever its
// step gives. In spoilt memory none was chosen.
pub fn reply(w: &Memory) -> [u32; 5] {
    let why = get(w, WHY);
    let chosen = (get(w, WHAT) == 9) & (get(w, ROW) != SPOILT);
    let task = either(chosen, plus(get(w, TASK), 1), 0);
    if why == 0 {
        return accepted(w, task);
    }
    if chosen & (why == 6) {
        return [3, 0, 0, 0, 0];
    }
    [2, why, 0, 0, task]
}

// The last one chosen: "A step refused by lack of records uses up its turn: the last one chosen, kept in the state, moves and no other word does." With 6 an
// idle task was left, with 8 the last one chosen stays, as in every refusal but 7.
pub fn chosen(w: &Memory) -> u32 {
    let why = get(w, WHY);
    let moves = (get(w, WHAT) == 9) & ((why == 0) | (why == 7));
    either(moves, get(w, TASK), get(w, CHOSEN))
}

// Of a start or a step: the task's record, the word that the line stores, the number last taken, then the record that is made.
fn step_to(w: &Memory, j: u32) -> usize {
    if j < 13 {
        return get(w, RECORD) as usize + j as usize;
    }
    match j {
        13 => look_at(w),
        14 => last_taken_at(get(w, ROW)),
        _ => record_at(w) % SPAN + (j - 15) as usize,
    }
}

// Where the record that is made is stored: the node of line 27, the bucket of 49, b of line 36.
fn record_at(w: &Memory) -> usize {
    match get(w, ROW) {
        27 => node_at(get(w, FREE), 0),
        49 => bucket_at(get(w, FREE), 0),
        36 => bucket_at(get(w, AT_B), 0),
        _ => NOWHERE,
    }
}

// "A task that runs nothing has a record of zeros and empty places."
fn step_word(w: &Memory, j: u32) -> u32 {
    if j < 13 {
        return either(next_line(w) == 0, 0, becomes(w, j as usize));
    }
    match j {
        13 => stored(w),
        14 => less_1(get(w, FREE)),
        _ => get(w, MADE + (j - 15) as usize),
    }
}

// A word after an opening, from the state's first on: "Opening zeroes both pools, puts changeable empty bucket 0 into node 0 of size 1, makes it head, and
// sets both "last taken" to 0". Of the last one chosen "an opening sets T − 1". "The state keeps whether its yard was opened under the new rule."
// What is not in the state or a slice stays. "A refused opening gives a state of all zeros."
fn opened(w: &Memory, at: usize) -> u32 {
    let nodes = (NODES <= at) & (at < NODES + get(w, NODE_WORDS) as usize);
    let lent = nodes | (BUCKETS <= at);
    match at {
        T => get(w, ASKED_K),
        VERSION => get(w, ASKED_TAG),
        H => get(w, NODE_WORDS) / 34,
        B => get(w, BUCKET_WORDS) / 66,
        CHOSEN => less_1(get(w, ASKED_K)),
        ZERO_WITHDRAWN => either(get(w, ASKED_RULE) == 0, 0, 1),
        NODES | 202 | BUCKETS => 1,
        _ => either((at < STATE_END) | lent, 0, get(w, at)),
    }
}

// Where word j of those that are stored goes, and what it is. A list and a show give the tags that are made.
fn to(w: &Memory, j: u32) -> usize {
    match get(w, WHAT) {
        8 => j as usize,
        6 | 7 => LENT + j as usize,
        _ => step_to(w, j),
    }
}

fn word(w: &Memory, j: u32) -> u32 {
    match get(w, WHAT) {
        8 => either(get(w, WHY) == 0, opened(w, j as usize), 0),
        6 | 7 => get(w, MADE + 2 + j as usize),
        _ => step_word(w, j),
    }
}

// How many words are stored.
fn words(w: &Memory) -> u32 {
    let what = get(w, WHAT);
    if get(w, WHY) != 0 {
        return either(what == 8, 113, 0);
    }
    match what {
        8 => plus(2410, get(w, BUCKET_WORDS)),
        6 | 7 => get(w, MADE + 1),
        _ => either(get(w, ROW) == 27, 49, 81),
    }
}

pub fn store(w: &mut Memory) {
    let n = words(w);
    for j in 0..n {
        let at = to(w, j);
        let v = word(w, j);
        put(w, at, v);
    }
}
