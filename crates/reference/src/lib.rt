// A second implementation of the yard set of paper 01, with requests U1 to U3, U7 and U9 of paper 02, to be compared word by word with the first.
// Its shape: state, pools, what is asked and the reply are words of one memory (reference_words::words has their addresses). The paper's lines are
// the rows of a table of letters (table.rt), and what a line sees and does is worked out from its letters (sight.rt). A call first looks at all of memory and
// makes a record or a list of tags beside it, then stores word by word (stores.rt). What a word must be is a letter too, by which spoilt memory is found, and
// the words that name a bucket (faults.rt). Records and tasks are found by going round (taking.rt), and sets of tags are gone through upwards, asking of
// each tag which bucket decides on it (tags.rt).
// No function has a requirement: any words and numbers may be lent.
// A function is best straight, its choices in small functions beside: what follows a choice is proved once for each way to it. And a function that may
// store does little else: what it stores is worked out in functions that only read, which are proved in a third of the time.
#![tactic(auto)]

mod faults;
mod places;
mod sight;
mod stores;
mod table;
mod tags;
mod taking;

use faults::{spoilt, unfit};
use reference_words::words::{
    AFTERWARDS, ASKED_K, ASKED_TAG, BUCKET_WORDS, CHOSEN, MINE, Memory, NODE_WORDS, NOWHERE,
    RECORD, RECORDS, REPLY, ROW, T, TASK, WHAT, WHY, ZERO_WITHDRAWN, copy, either, get, less_1,
    plus, put, put_words,
};
use sight::{line_refusal, made, set_made};
use stores::{chosen, reply, store};
use table::SPOILT;
use tags::{count, gather};
use taking::{free_record, running_task};

// "Start: 8, 4, 5. Step: 8, 4, 6, 8 of the step, 7." "14, starting an insert of tag 0 under the new rule, after 5"
fn event_refusal(w: &Memory, made: u32) -> u32 {
    let what = get(w, WHAT);
    let zero = (what == 1) & (get(w, ASKED_TAG) == 0) & (get(w, ZERO_WITHDRAWN) != 0);
    let idle = either(what % 9 == 0, 6, either(zero, 14, 0));
    let busy = either(what % 9 == 0, line_refusal(w, made), 5);
    let own = either(get(w, MINE) != 0, busy, idle);
    either(get(w, RECORD) == NOWHERE as u32, 4, own)
}

// "List: 8, 9", 8 "also if more than 64 tags are listed". ASKED_K is the length of the list slice. A show is never refused.
fn refusal(w: &Memory, made: u32) -> u32 {
    let spoilt = get(w, ROW) == SPOILT;
    let k = get(w, ASKED_K);
    match get(w, WHAT) {
        8 => unfit(
            k,
            get(w, NODE_WORDS),
            get(w, BUCKET_WORDS),
            get(w, ASKED_TAG),
        ),
        7 => 0,
        6 => either(spoilt | (64 < made), 8, either(k < 64, 9, 0)),
        _ => either(spoilt, 8, event_refusal(w, made)),
    }
}

// The task that is meant: a turn is a step of the task that it finds.
fn task_meant(w: &Memory, what: u32) -> u32 {
    if what == 9 {
        less_1(running_task(w))
    } else {
        get(w, ASKED_K)
    }
}

// The task that is meant, where its record is, the row of the table, and the record that the line would take.
fn looked(w: &Memory) -> [u32; 4] {
    let bad = spoilt(w);
    let what = either(bad, SPOILT, get(w, WHAT));
    let k = task_meant(w, what);
    let none = bad | (get(w, T) <= k);
    let at = either(none, NOWHERE as u32, plus(RECORDS as u32, k % 8 * 13));
    let row = either(what % 9 == 0, get(w, at as usize + 3), what);
    [k, at, row, free_record(w, row)]
}

// What a call asks of the whole of memory, the sets of tags that it makes, and whether it is refused.
fn look(w: &mut Memory) {
    let a = looked(w);
    put_words(w, TASK, &a);
    let at = get(w, RECORD) as usize;
    copy(w, at, MINE, 13);
    let set = set_made(w);
    gather(w, set);
    let n = count(w, set);
    let b = made(w, refusal(w, n), n);
    put_words(w, WHY, &b);
}

// What WHAT asks: a step of task ASKED_K (0), the start of a call of it with ASKED_TAG (1 insert, 2 remove, 3 contains, 4 grow, 5 shrink), a list
// into so many words (6), a show of this bucket (7), an opening with so many tasks, ASKED_TAG the version and ASKED_RULE 0 for the old rule for
// tag 0, else the new one (8), a turn (9); nothing for other numbers.
pub fn act(w: &mut Memory) {
    if 9 < get(w, WHAT) {
        return;
    }
    look(w);
    let a = reply(w);
    put_words(w, REPLY, &a);
    let k = chosen(w);
    put(w, CHOSEN, k);
    store(w);
}
