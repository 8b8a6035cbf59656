// The proved set's state made of the words that m had before the call, and its state and answers compared with the words of m, as the second
// implementation has them.
use crate::both::alike;
use crate::vars::FIRST;
use dispatch::Turned;
use lines::Stepped;
use opening::Opened;
use reference_words::words::{
    B, CHOSEN, H, HEAD, LAST_BUCKET, LAST_NODE, LENT, Memory, NODE_WORDS, RECORDS, REPLY,
    STATE_END, T, VERSION, ZERO_WITHDRAWN, either, field_at, get, plus,
};
use spec::{Answer, Config, Listing, Output, Progress, Refusal, State, Task};
use turns::Turn;

// A word as m had it before the call, and word j of task k's record.
fn was(m: &Memory, at: usize) -> u32 {
    get(m, FIRST + at % 1000)
}

fn field(m: &Memory, k: u32, j: u32) -> u32 {
    was(m, field_at(k, j))
}

fn task_at(m: &Memory, k: u32) -> Task {
    Task {
        running: field(m, k, 0) != 0,
        call: field(m, k, 1),
        tag: field(m, k, 2),
        line: field(m, k, 3),
        i: field(m, k, 4),
        own: (field(m, k, 5) % 65536) as u16,
        t: field(m, k, 6),
        s: field(m, k, 7),
        b: field(m, k, 8),
        m: field(m, k, 9),
        n: field(m, k, 10),
        new_node: field(m, k, 11),
        new_bucket: field(m, k, 12),
    }
}

fn tasks_of(m: &Memory) -> [Task; 8] {
    [
        task_at(m, 0),
        task_at(m, 1),
        task_at(m, 2),
        task_at(m, 3),
        task_at(m, 4),
        task_at(m, 5),
        task_at(m, 6),
        task_at(m, 7),
    ]
}

pub fn state_of(m: &Memory) -> State {
    let ts = tasks_of(m);
    State {
        config: Config {
            tasks: was(m, T),
            version: was(m, VERSION),
            zero_withdrawn: was(m, ZERO_WITHDRAWN) != 0,
        },
        nodes: was(m, H),
        buckets: was(m, B),
        head: was(m, HEAD),
        last_node: was(m, LAST_NODE),
        last_bucket: was(m, LAST_BUCKET),
        chosen: was(m, CHOSEN),
        task: ts,
    }
}

// Whether these words are as they were before the call.
pub fn is_kept(m: &Memory, from: usize, end: usize) -> bool {
    for at in from..end {
        if get(m, at) != was(m, at) {
            return false;
        }
    }
    true
}

fn is_task(m: &Memory, at: usize, c: Task) -> bool {
    alike(
        &[
            either(c.running, 1, 0),
            c.call,
            c.tag,
            c.line,
            c.i,
            c.own as u32,
            c.t,
            c.s,
            c.b,
            c.m,
            c.n,
            c.new_node,
            c.new_bucket,
        ],
        m,
        at,
    )
}

fn are_tasks(m: &Memory, ts: [Task; 8]) -> bool {
    for (k, c) in ts.iter().enumerate() {
        if !is_task(m, RECORDS + 13 * k, *c) {
            return false;
        }
    }
    true
}

fn is_header(m: &Memory, s: State) -> bool {
    let g = s.config;
    let sizes = [
        g.tasks,
        g.version,
        s.nodes,
        s.buckets,
        s.head,
        s.last_node,
        s.last_bucket,
    ];
    let after = [s.chosen, either(g.zero_withdrawn, 1, 0)];
    alike(&sizes, m, T) & alike(&after, m, CHOSEN)
}

// A reply, and a state that was moved on: lent words stay.
fn is_moved(m: &Memory, s: State, said: [u32; 5]) -> bool {
    let ts = s.task;
    is_header(m, s) & are_tasks(m, ts) & alike(&said, m, REPLY) & is_kept(m, LENT, NODE_WORDS)
}

// A reply by which the state stays.
pub fn is_answered(m: &Memory, said: [u32; 5]) -> bool {
    alike(&said, m, REPLY) & is_kept(m, 0, STATE_END)
}

fn answer(a: Answer) -> u32 {
    match a {
        Answer::Yes => 1,
        Answer::No => 2,
        Answer::Full => 3,
        Answer::Done => 4,
        Answer::Lost => 5,
        Answer::Limit => 6,
    }
}

// The number of tags plus 1, 0 where it is not given.
fn occupancy(o: Option<u32>) -> u32 {
    match o {
        None => 0,
        Some(n) => plus(n, 1),
    }
}

// An output as a reply, of a turn with the task that it names plus 1.
fn output(o: Output, named: u32) -> [u32; 5] {
    match o {
        Ok(Progress::At(l)) => [0, l, 0, 0, named],
        Ok(Progress::End(a, n, f)) => [1, answer(a), n as u32, occupancy(f), named],
        Err(why) => [2, why.number(), 0, 0, named],
    }
}

fn opening(why: Option<Refusal>) -> [u32; 5] {
    match why {
        None => [0, 0, 0, 0, 0],
        Some(refusal) => [2, refusal.number(), 0, 0, 0],
    }
}

pub fn listing(l: Listing) -> [u32; 5] {
    match l {
        Ok(c) => [0, c, 0, 0, 0],
        Err(why) => [2, why.number(), 0, 0, 0],
    }
}

fn turn(says: Turn) -> [u32; 5] {
    match says {
        Turn::Idle => [3, 0, 0, 0, 0],
        Turn::Of(k, o) => output(o, plus(k, 1)),
        Turn::Refused(why) => [2, why.number(), 0, 0, 0],
    }
}

pub fn is_stepped(m: &Memory, r: Stepped) -> bool {
    let s = r.state;
    let o = r.out;
    is_moved(m, s, output(o, 0))
}

pub fn is_opened(m: &Memory, o: Opened) -> bool {
    let s = o.state;
    is_moved(m, s, opening(o.refusal))
}

pub fn is_turned(m: &Memory, r: Turned) -> bool {
    let s = r.state;
    let says = r.says;
    is_moved(m, s, turn(says))
}
