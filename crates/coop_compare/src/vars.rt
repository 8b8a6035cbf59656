// The words of the program, after those of the second implementation.

// The versions of the proved bucket, and memory as it was kept.
pub const FIRST_VERSIONS: usize = 140000;

pub const KEPT: usize = 210000;
// Of the script: the row's letter, and which of its numbers is read.
pub const LETTER: usize = 280000;

pub const ARGUMENT: usize = 280001;
// Of random schedules: calls left, the last pseudo-random number, tasks, operations, tags, of 100 starts the freezes, calls of a schedule, of 100 starts the
// get responses past 15; calls left of an excursion into spoilt memory.
pub const LEFT: usize = 280010;

pub const SEED: usize = 280011;

pub const TASKS_DRAWN: usize = 280012;

pub const OPERATIONS_DRAWN: usize = 280013;

pub const TAGS_DRAWN: usize = 280014;

pub const FREEZES: usize = 280015;

pub const SCHEDULE: usize = 280016;

pub const GETS: usize = 280017;

pub const EXCURSION: usize = 280018;
// The call that the task asked for ran before; whether some word differed; how many random calls there were, and with how many of them some word differed.
pub const RAN: usize = 280019;

pub const DIFFERS: usize = 280020;

pub const CALLS: usize = 280021;

pub const DIFFERENCES: usize = 280022;
// Counts. Rows of 256: lines, answers, refusals, versions given by a freeze; the same in spoilt memory.
pub const COUNTS: usize = 281000;
