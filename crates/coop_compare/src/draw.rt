// Random schedules, with spoilt memory in between, drawn from the numbers of a row.
use crate::vars::{
    EXCURSION, FREEZES, GETS, KEPT, LEFT, OPERATIONS_DRAWN, SCHEDULE, SEED, TAGS_DRAWN, TASKS_DRAWN,
};
use crate::{both, report};
use coop_reference::slices::{copy, get, put, put_words};
use coop_reference::words::{OPERATIONS, TASKS, VERSION_WORDS, VERSIONS, WHAT};
use reference_words::words::{NOWHERE, either, less_1, plus, rest};

// Pseudo-random numbers: the multiplicative generator of Lehmer with modulus 2^31 - 1.
fn next(x: u32) -> u32 {
    ((x as u64) * 48271 % 2147483647) as u32
}

// So far on that what is drawn from either number is drawn apart.
fn later(x: u32) -> u32 {
    next(next(next(next(x))))
}

// A number below n, 0 where n is 0.
fn below(x: u32, n: u32) -> u32 {
    rest(x / 8, n)
}

// A word to be spoilt: a version's first word, any of its words, one of the drawn operations, of the state's first five, or of a task.
fn odd_word(m: &[u32], x: u32) -> usize {
    let lent = get(m, VERSION_WORDS);
    let y = next(x);
    match x / 8 % 8 {
        0 | 1 => VERSIONS + below(y, lent / 66) as usize * 66,
        2 | 3 => VERSIONS + below(y, lent) as usize,
        4 => OPERATIONS + below(y, get(m, OPERATIONS_DRAWN) % 65 * 5) as usize,
        5 => y as usize % 5,
        _ => TASKS + y as usize % 72,
    }
}

// A value that it may get: a small number, a line of the figure, a bound, 0, anything.
fn odd_value(x: u32) -> u32 {
    let y = next(x);
    match x / 8 % 5 {
        0 => y % 5,
        1 => 94 + y % 48,
        2 => 62 + y % 6,
        3 => 0,
        _ => y,
    }
}

// State and versions are kept, or put back as they were kept.
pub fn move_memory(m: &mut [u32], keeps: bool, restores: bool) {
    let n = either(
        keeps | restores,
        plus(get(m, VERSION_WORDS), VERSIONS as u32),
        0,
    );
    copy(
        m,
        if restores { KEPT } else { 0 },
        if keeps { KEPT } else { 0 },
        n as usize,
    );
}

// One call in 30 begins an excursion: memory is kept, a word is spoilt, in half of them another a call later, and after three calls memory is put back.
fn spoil(m: &mut [u32], x: u32, opens: bool) {
    let before = get(m, EXCURSION);
    let begins = either(below(x, 30) == 0, 3, 0);
    let left = either(opens, 0, either(before == 0, begins, less_1(before)));
    let spoils = (left == 3) | ((left == 2) & (x % 2 == 0));
    move_memory(m, left == 3, before == 1);
    put(m, EXCURSION, left);
    put(
        m,
        if spoils {
            odd_word(m, next(x))
        } else {
            NOWHERE
        },
        odd_value(next(next(next(x)))),
    );
}

// What is asked of a task: mostly a step if it runs, a start if it is idle. An invoke's type goes with its operation.
fn what_for(m: &[u32], k: u32, n: u32, x: u32) -> u32 {
    let runs = get(m, TASKS + (k % 8) as usize * 9) != 0;
    let d = below(next(x), 100);
    let get_or_invoke = either(d < plus(45, get(m, GETS)), 5, 1 + n % 2);
    let call = either(d < 30, 4, get_or_invoke);
    either(
        runs == (x / 8 % 16 != 0),
        0,
        either(d < get(m, FREEZES), 3, call),
    )
}

// A task that exists, but for one call in 64; an operation, and a tag that goes with it, but for one in 16.
fn event(m: &mut [u32], x: u32) {
    let y = next(x);
    let z = next(y);
    let all = get(m, TASKS_DRAWN);
    let k = either(y / 8 % 64 == 0, all, below(x, all));
    let n = below(z, get(m, OPERATIONS_DRAWN));
    let salt = either(y / 512 % 16 == 0, 1, get(m, SCHEDULE));
    let tag = rest(plus(n, salt), get(m, TAGS_DRAWN));
    put_words(m, WHAT, &[what_for(m, k, n, next(z)), k, n, tag]);
}

// A schedule begins with an opening.
fn draw(m: &mut [u32], opens: bool) {
    let x = next(get(m, SEED));
    put(m, SEED, later(later(x)));
    spoil(m, x, opens);
    event(m, later(x));
    put_words(
        m,
        if opens { WHAT } else { NOWHERE },
        &[6, get(m, TASKS_DRAWN)],
    );
}

// So many random calls as are left.
pub fn calls(m: &mut [u32]) {
    for left in (1..=get(m, LEFT)).rev() {
        draw(m, rest(left, get(m, SCHEDULE)) == 0);
        both::call(m);
        report::count(m);
    }
    put(m, LEFT, 0);
}
