// "Held", and what is chosen by going round. Memory is sound here, so an idle task's record has no filled place.
use super::faults::among;
use super::places::{head, node};
use reference_words::words::{
    B, CHOSEN, H, LAST_BUCKET, LAST_NODE, Memory, NODE_WORDS, NODES, NOWHERE, RECORDS, T, either,
    field_at, get, less_1, plus, rest,
};

// "the head, the t, s or new node of a running task" (words 6, 7 and 11): the place numbered r, r from 0 to 24.
fn root(w: &Memory, r: u32) -> u32 {
    let j = r % 3;
    let own = get(w, field_at(r / 3, 6 + j + j / 2 * 3));
    either(r == 24, head(w), own)
}

// "or the predecessor of a held node": 64 nodes from each root on, one after the other, which always do, also round a cycle.
pub fn is_held_node(w: &Memory, of: u32) -> bool {
    let mut place: u32 = 0;
    for at in 0..1600 {
        place = either(at % 64 == 0, root(w, at / 64), node(w, place, 1));
        if place == of {
            return true;
        }
    }
    false
}

// "A record is taken as the first one not held after the last taken, going round and trying the last taken itself at the end"; a turn goes "round from the
// last one chosen, .. passing idle tasks". The place of what is found, 0 for none, of so many places, after the number that was last.
fn go_round<F: Fn(&Memory, u32) -> bool>(w: &Memory, count: u32, last: u32, is_sought: F) -> u32
    requires { F.IsAlwaysCallable is_sought }
{
    let mut place = plus(last, 1);
    for _ in 0..count {
        place = plus(rest(place, count), 1);
        if is_sought(w, place) {
            return place;
        }
    }
    0
}

// The task that a turn goes to: one that runs.
pub fn running_task(w: &Memory) -> u32 {
    go_round(w, get(w, T), get(w, CHOSEN), |w, place| {
        get(w, field_at(less_1(place), 0)) != 0
    })
}

// Where the number of the record last taken is, of line 27's nodes and line 49's buckets.
pub fn last_taken_at(row: u32) -> usize {
    match row {
        27 => LAST_NODE,
        49 => LAST_BUCKET,
        _ => NOWHERE,
    }
}

// The record that line 27 or line 49 would take. "A bucket is held if a held node places it, or it is the b, m, n or new bucket of a running task."
pub fn free_record(w: &Memory, row: u32) -> u32 {
    let last = get(w, last_taken_at(row));
    match row {
        27 => go_round(w, get(w, H), last, |w, place| !is_held_node(w, place)),
        49 => go_round(w, get(w, B), last, |w, place| {
            !among(w, RECORDS, 104, place) & !among(w, NODES, get(w, NODE_WORDS), place)
        }),
        _ => 0,
    }
}
