// What is counted and printed: each output's line, answer or refusal, and the differences found.
use crate::vars::{CALLS, COUNTS, DIFFERENCES, DIFFERS, EXCURSION, RAN};
use coop_reference::slices::{get, put};
use coop_reference::words::{REPLY, WHAT};
use reference_words::words::{either, plus};

fn number(name: &[u8], n: u32) {
    io::write_all(1, name);
    io::print_decimal(1, n as u64);
}

fn number_if(name: &[u8], n: u32) {
    if n != 0 {
        number(name, n);
    }
}

fn value(kind: u32, n: u32) {
    match kind {
        0 => number(b" at=", n),
        1 => number(b" end=", n),
        2 => number(b" refuse=", n),
        _ => number(b" frozen=", n),
    }
}

// What came out of a call: the task's line, an answer (1 yes, 2 no), a refusal, or the version of a freeze; own steps of a call that ended.
pub fn outcome(m: &[u32]) {
    if get(m, WHAT) == 7 {
        return;
    }
    value(get(m, REPLY), get(m, REPLY + 1));
    number_if(b" own=", get(m, REPLY + 2));
    number_if(b" DIFFERS ", get(m, DIFFERS));
}

// After a random call: a line, an answer after ten times the call that ended, a refusal after ten times what was asked, or a version.
pub fn count(m: &mut [u32]) {
    let kind = get(m, REPLY);
    let ten = either(kind == 1, get(m, RAN), either(kind == 2, get(m, WHAT), 0));
    let row = plus(kind, either(get(m, EXCURSION) == 0, 0, 4));
    let at = (row % 8) as usize * 256 + ((ten as usize) * 10 + get(m, REPLY + 1) as usize) % 256;
    put(m, COUNTS + at, plus(get(m, COUNTS + at), 1));
    put(m, CALLS, plus(get(m, CALLS), 1));
    put(m, DIFFERENCES, plus(get(m, DIFFERENCES), get(m, DIFFERS)));
}

fn cell(i: u32, n: u32) {
    if n != 0 {
        number(b" ", i);
        number(b":", n);
    }
}

// The counts of a row that are not 0, each as number:count.
fn row(name: &[u8], m: &[u32], r: u32) {
    let first = COUNTS + (r % 8) as usize * 256;
    io::write_all(1, name);
    for i in 0..256 {
        cell(i, get(m, first + i as usize));
    }
}

fn rows(m: &[u32], r: u32) {
    row(b"\nat line", m, r);
    row(
        b"\nended, ten times the call (1 insert 2 remove 4 member test 5 get response) and 1 yes 2 no",
        m,
        plus(r, 1),
    );
    row(
        b"\nrefused, ten times what was asked (0 step, a start by its call, 6 opening) and the refusal",
        m,
        plus(r, 2),
    );
    row(b"\nfrozen, by version", m, plus(r, 3));
}

pub fn print(m: &[u32]) {
    number(b"\ncalls ", get(m, CALLS));
    rows(m, 0);
    io::write_all(1, b"\nin spoilt memory:");
    rows(m, 4);
    number(b"\ndifferences ", get(m, DIFFERENCES));
    io::write_all(1, b"\n");
}
