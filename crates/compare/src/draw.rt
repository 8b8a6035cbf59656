// Random schedules, with spoilt memory in between, drawn from the numbers of the script.
use crate::script::change;
use crate::vars::{
    CALLS_EACH, CONTAINS, COUNTED, DRAWN, EXCURSION, LEFT, LUCK, OPENS, OTHERS, REMOVES, RESIZES,
    SEED, TAGS, TASKS, TURNS,
};
use reference_words::words::{
    ASKED_RULE, BUCKET_WORDS, BUCKETS, CHOSEN, Memory, NODE_WORDS, NODES, NOWHERE, STATE_END,
    VERSION, WHAT, ZERO_WITHDRAWN, either, field_at, get, less_1, plus, put_words, rest,
};

// Pseudo-random numbers: the multiplicative generator of Lehmer with modulus 2^31 - 1. The low digits are good enough for choices.
fn next(x: u32) -> u32 {
    ((x as u64) * 48271 % 2147483647) as u32
}

// Seven numbers on: the factor is 48271 to the seventh power.
fn next_7(x: u32) -> u32 {
    ((x as u64) * 1105902161 % 2147483647) as u32
}

// A number below n, 0 where n is 0.
fn below(x: u32, n: u32) -> u32 {
    rest(x / 8, n)
}

// The number in place i of a table, 0 past its end.
fn one_of(table: &[u32], i: u32) -> u32 {
    let at = i as usize;
    if at < table.len() { table[at] } else { 0 }
}

// A value that a spoilt word may get: anything, a small number, a bound, a line of the paper.
fn odd_value(x: u32) -> u32 {
    let y = next(x);
    let kind = below(x, 8);
    let other = one_of(
        &[
            12, 13, 15, 16, 17, 18, 20, 24, 27, 28, 32, 33, 36, 39, 40, 43, 44, 46, 47, 48, 49, 50,
            51, 52, 5, 8, 31, 33, 64, 65, 200, 1024,
        ],
        below(y, 32),
    );
    either(
        kind == 0,
        4294967295 - y,
        either(kind < 4, below(y, 5), other),
    )
}

// A word to be spoilt: of the state half of the time, with the version, the last one chosen and the rule for tag 0 one time in 16 each, or of the nodes, or
// of the buckets.
fn odd_word(m: &Memory, x: u32) -> u32 {
    let y = next(x);
    let n = plus(NODES as u32, below(y, get(m, NODE_WORDS)));
    let b = plus(BUCKETS as u32, below(y, get(m, BUCKET_WORDS)));
    let s = below(y, STATE_END as u32);
    let version = VERSION as u32;
    let chosen = CHOSEN as u32;
    let rule = ZERO_WITHDRAWN as u32;
    one_of(
        &[n, n, n, n, b, b, b, b, version, chosen, rule, s, s, s, s, s],
        below(x, 16),
    )
}

// One call in 40 begins an excursion: memory is kept, a word is spoilt, in one of three excursions another a call later, and at the end of eleven
// calls memory is put back. Calls left of it after this one:
fn excursion(before: u32, x: u32, opens: bool) -> u32 {
    let begins = either(below(x, 40) == 0, 11, 0);
    either(opens, 0, either(before == 0, begins, less_1(before)))
}

// The word that is spoilt before this call.
fn spoilt(m: &Memory, left: u32, x: u32) -> u32 {
    either(
        (left == 11) | ((left == 10) & (below(x, 3) == 0)),
        odd_word(m, next(x)),
        NOWHERE as u32,
    )
}

// That this call is drawn, how memory moves, the word that is spoilt and its value, the random calls left, the next pseudo-random number, the calls left of an
// excursion, whether a schedule begins, the number that this call is drawn from.
fn luck(m: &Memory) -> [u32; 9] {
    let x = next(get(m, SEED));
    let before = get(m, EXCURSION);
    let opens = rest(get(m, LEFT), get(m, CALLS_EACH)) == 0;
    let left = excursion(before, x, opens);
    [
        1,
        either(left == 11, b'k' as u32, either(before == 1, b'p' as u32, 0)),
        spoilt(m, left, x),
        odd_value(next(x)),
        less_1(get(m, LEFT)),
        next_7(x),
        left,
        either(opens, 1, 0),
        x,
    ]
}

// The task of an event: one that exists, but for one event in 64.
fn task_for(m: &Memory, x: u32) -> u32 {
    let all = get(m, TASKS);
    let k = below(x / 64, all);
    let y = next(x);
    let other = (get(m, field_at(k, 3)) == 15) & (below(next(y), 128) < get(m, OTHERS));
    either(below(y, 64) == 0, all, either(other, below(y / 64, all), k))
}

fn call_for(m: &Memory, x: u32) -> u32 {
    let r = below(next(x), 100);
    either(
        below(x, 100) < get(m, RESIZES),
        4 + x / 1024 % 2,
        either(r < get(m, REMOVES), 2, either(r < get(m, CONTAINS), 3, 1)),
    )
}

// What is asked: mostly a step of a running task, a start of an idle one, or a turn (9), now and then a list (6) or a show (7).
fn what_for(m: &Memory, k: u32, x: u32) -> u32 {
    let d = below(x, 64);
    let y = next(x);
    let running = (k < 8) & (get(m, field_at(k, 0)) != 0);
    let steps = running == (below(y, 16) != 0);
    either(
        d < 2,
        6 + d % 2,
        either(
            d < plus(2, get(m, TURNS)),
            9,
            either(steps, 0, call_for(m, next(y))),
        ),
    )
}

// A multiple of 7: some tags then have the same tag div 10. One time in 16 tag 0.
fn tag_for(m: &Memory, x: u32) -> u32 {
    let tags = either(below(next(x), 16) == 0, 1, get(m, TAGS));
    below(x, tags) % 1000000 * 7
}

fn event(m: &Memory, x: u32) -> [u32; 4] {
    let k = task_for(m, x);
    let y = next(next(x));
    let what = what_for(m, k, y);
    // The list is into 63, 64 or 65 words, the show of a bucket below 210.
    let of = either(
        what == 6,
        63 + y / 64 % 3,
        either(what == 7, below(y / 64, 210), k),
    );
    [what, of, tag_for(m, next(y)), get(m, ASKED_RULE)]
}

// What is asked. A schedule begins with an opening, under the other rule for tag 0 than the schedule before.
fn drawn(m: &Memory) -> [u32; 4] {
    if get(m, OPENS) != 0 {
        let rule = either(get(m, ASKED_RULE) == 0, 1, 0);
        return [8, get(m, TASKS), get(m, COUNTED), rule];
    }
    event(m, next(next(next(get(m, LUCK)))))
}

pub fn random(m: &mut Memory) {
    let a = luck(m);
    change(m, DRAWN, &a);
    let b = drawn(m);
    put_words(m, WHAT, &b);
}
