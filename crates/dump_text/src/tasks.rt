// The state's numbers, and each task: what it runs, the figure's variables, and the line that it does next.
#![tactic(auto, using(crate::proofs::Laws::printing))]

ghost use Rattle.dump_text.specs.Within.{Within};

use crate::print::field;
use crate::words::{Kind, Set};
use session_bytes::Page;

// The state's words before its tasks', a task's words, and the most tasks: docs/FITTERS.md has their order.
const FIRST_TASK: usize = 9;

const TASK_WORDS: usize = 13;

pub const MOST_TASKS: u32 = 8;

// The figure's variables that a task has, each by its place in the task's words.
#[derive(Clone, Copy, PartialEq, Eq)]
pub enum Variable {
    Tag = 2,
    I = 4,
    Own = 5,
    T = 6,
    S = 7,
    B = 8,
    M = 9,
    N = 10,
    NewNode = 11,
    NewBucket = 12,
}

pub const VARIABLES: [Variable; 10] = [
    Variable::Tag,
    Variable::I,
    Variable::Own,
    Variable::T,
    Variable::S,
    Variable::B,
    Variable::M,
    Variable::N,
    Variable::NewNode,
    Variable::NewBucket,
];

impl Variable {
    pub fn name(self) -> &'static str {
        match self {
            Variable::Tag => "tag",
            Variable::I => "i",
            Variable::Own => "own",
            Variable::T => "t",
            Variable::S => "s",
            Variable::B => "b",
            Variable::M => "m",
            Variable::N => "n",
            Variable::NewNode => "new_node",
            Variable::NewBucket => "new_bucket",
        }
    }

    // What it names, if it names a record.
    pub fn kind(self) -> Option<Kind> {
        match self {
            Variable::Tag | Variable::I | Variable::Own => None,
            Variable::T | Variable::S | Variable::NewNode => Some(Kind::Node),
            Variable::B | Variable::M | Variable::N | Variable::NewBucket => Some(Kind::Bucket),
        }
    }

    // Its word in a task whose words these are.
    fn of_words(self, words: &[u32]) -> u32 {
        pool::word(words, self as usize)
    }

    // Its word in task k.
    pub fn of_task(self, set: Set<'_>, k: u32) -> u32 {
        pool::word(
            set.words,
            FIRST_TASK + TASK_WORDS * k as usize + self as usize,
        )
    }
}

// The second freeze of the figure's line 48 is a step of its own: "Line numbers are Figure 2's; 52 is ours."
const SECOND_FREEZE: u32 = 52;

// Whether a step reads the head, which is no variable of a task.
fn reads_head(line: u32) -> bool {
    matches!(line, 12 | 20 | 28 | 32)
}

// The variables that a step reads, after paper 01, "One step, one line".
fn reads(line: u32) -> &'static [Variable] {
    match line {
        13 | 17 | 33 => &[Variable::Tag, Variable::T],
        15 | 24 | 27 => &[Variable::T],
        16 => &[Variable::Tag, Variable::S],
        18 | 36 => &[Variable::Tag, Variable::B],
        28 => &[Variable::T, Variable::NewNode],
        39 | 51 => &[Variable::I, Variable::T],
        40 => &[Variable::T, Variable::B],
        43 | 46 => &[Variable::I, Variable::S],
        44 | 48 => &[Variable::M],
        47 => &[Variable::I, Variable::T, Variable::S],
        49 => &[Variable::I, Variable::T, Variable::M, Variable::N],
        50 => &[Variable::I, Variable::T, Variable::NewBucket],
        SECOND_FREEZE => &[Variable::N],
        _ => &[],
    }
}

// A word of a variable: a number, or a record.
fn value(page: &mut Page<'_>, kind: Option<Kind>, word: u32)
    ensures { Within page.old page.new }
{
    let Some(kind) = kind else {
        return page.number(u64::from(word));
    };
    match word.checked_sub(1) {
        None => page.bytes(b"nil"),
        Some(k) => field(page, kind.name(), k),
    }
}

// These variables of a task whose words these are, each with its name.
fn variables(page: &mut Page<'_>, words: &[u32], set: &[Variable])
    ensures { Within page.old page.new }
{
    for v in set {
        page.bytes(b" ");
        page.bytes(v.name().as_bytes());
        page.bytes(b"=");
        value(page, v.kind(), v.of_words(words));
    }
}

// The line that a task does next.
fn line_name(page: &mut Page<'_>, line: u32)
    ensures { Within page.old page.new }
{
    if line == SECOND_FREEZE {
        page.bytes(b"\n  next: step 52, the second freeze of line 48 of Figure 2, with");
    } else {
        field(page, "\n  next: line ", line);
        page.bytes(b" of Figure 2, with");
    }
}

// A running task, whose words these are, in a set with this head.
fn running(page: &mut Page<'_>, words: &[u32], head: u32)
    ensures { Within page.old page.new }
{
    variables(page, words, &VARIABLES);
    let line = pool::word(words, 3);
    line_name(page, line);
    if reads_head(line) {
        field(page, " head=node ", head);
    }
    variables(page, words, reads(line));
    page.bytes(b"\n");
}

// Task k, whose words these are.
fn task(page: &mut Page<'_>, k: u32, words: &[u32], head: u32)
    ensures { Within page.old page.new }
{
    field(page, "task ", k);
    let call = pool::word(words, 1);
    let name = match call {
        0 => ": idle\n",
        1 => ": insert",
        2 => ": remove",
        3 => ": contains",
        4 => ": grow",
        5 => ": shrink",
        _ => "",
    };
    page.bytes(name.as_bytes());
    if call != 0 {
        running(page, words, head);
    }
}

// The tasks that the set was opened with.
pub fn tasks(page: &mut Page<'_>, set: Set<'_>)
    ensures { Within page.old page.new }
{
    for k in 0..set.tasks().min(MOST_TASKS) {
        if let Some(words) = set.words.get(FIRST_TASK + TASK_WORDS * k as usize..) {
            task(page, k, words, set.head());
        }
    }
}

// The state's words before its tasks', by their names.
const NUMBERS: [&str; FIRST_TASK] = [
    "T=",
    " version=",
    " zero_withdrawn=",
    " H=",
    " B=",
    " head=",
    " last_node=",
    " last_bucket=",
    " chosen=",
];

pub fn numbers(page: &mut Page<'_>, set: Set<'_>)
    ensures { Within page.old page.new }
{
    for (j, name) in NUMBERS.iter().enumerate() {
        field(page, name, pool::word(set.words, j));
    }
    page.bytes(b"\n");
}
