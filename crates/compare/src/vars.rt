// The words of the program, after those of the second implementation.

// Of the script, from ASKED_RULE on: the next byte; the byte to go back to from the first line, 0 outside of it; the number just read; whether this is a
// comment; the address of the word named last.
pub const NEXT: usize = 71264;

pub const BACK: usize = 71265;

pub const NUMBER: usize = 71266;

pub const QUIET: usize = 71267;

pub const NAMED: usize = 71268;
// Of the script and of random calls: whether this call is drawn; how memory moves before it, the byte k or p of the script; the address of a word that is set
// then, and its value.
pub const DRAWN: usize = 71269;

pub const WAY: usize = 71270;

pub const PLACE: usize = 71271;

pub const VALUE: usize = 71272;
// Of random calls, from VALUE on: the calls left; the last pseudo-random number; calls left of an excursion into spoilt memory; whether a schedule begins;
// the number that the call is drawn from.
pub const LEFT: usize = 71273;

pub const SEED: usize = 71274;

pub const EXCURSION: usize = 71275;

pub const OPENS: usize = 71276;

pub const LUCK: usize = 71277;
// The numbers that stood before each letter of the script last, at NUMBERS plus the letter. Those of D, G, L, R, T, U, V, W, Z and t have names.
pub const NUMBERS: usize = 72020;

pub const REMOVES: usize = 72088;

pub const TAGS: usize = 72091;

pub const CONTAINS: usize = 72096;

pub const RESIZES: usize = 72102;

pub const TASKS: usize = 72104;

pub const TURNS: usize = 72105;

pub const COUNTED: usize = 72106;

pub const CALLS_EACH: usize = 72107;

pub const OTHERS: usize = 72110;

pub const TAG_ASKED: usize = 72136;
// State, reply and lent words as they were before the call.
pub const FIRST: usize = 73000;
// Counts, 20 rows of 64 for each V of the script: lines, answers, refusals, turns with nothing running, turns accepted by task, turns refused with
// 7 by task, turns refused with 8 of the step by task; the same in spoilt memory; lists and shows that are not refused; calls; differences; openings under the
// new rule for tag 0.
pub const COUNTS: usize = 74000;

pub const VERSION_COUNTS: usize = 1280;

pub const LISTS: u32 = 896;

pub const SHOWS: u32 = 960;

pub const CALLS: u32 = 1024;

pub const DIFFERENCES: u32 = 1088;

pub const WITHDRAWN: u32 = 1152;
// Where nothing is counted.
pub const NOTHING: u32 = 1216;
// Memory as it was kept.
pub const KEPT: usize = 80000;
