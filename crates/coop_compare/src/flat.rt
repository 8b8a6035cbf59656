// The proved bucket's state and output, made of words and compared with words, as the second implementation has them.
use coop_reference::slices::get;
use coop_reference::words::{FLAG, LAST, NODE, OPERATIONS, REPLY, T, TASKS, V};
use coop_spec::{Answer, Operation, Output, Progress, State, Task};

fn operation_of(m: &[u32], n: usize) -> Operation {
    let at = OPERATIONS + n % 64 * 5;
    Operation {
        kind: get(m, at),
        tag: get(m, at + 1),
        resp: get(m, at + 2) != 0,
        done: get(m, at + 3) != 0,
        returned: get(m, at + 4) != 0,
    }
}

fn operations_of(m: &[u32]) -> [Operation; 64] {
    let mut a = [operation_of(m, 0); 64];
    for (n, x) in a.iter_mut().enumerate() {
        *x = operation_of(m, n);
    }
    a
}

fn task_of(m: &[u32], k: usize) -> Task {
    let at = TASKS + k % 8 * 9;
    Task {
        running: get(m, at) != 0,
        call: get(m, at + 1),
        op: get(m, at + 2),
        tag: get(m, at + 3),
        line: get(m, at + 4),
        back: get(m, at + 5),
        own: (get(m, at + 6) % 65536) as u16,
        o: get(m, at + 7),
        helped: get(m, at + 8),
    }
}

fn tasks_of(m: &[u32]) -> [Task; 8] {
    let mut a = [task_of(m, 0); 8];
    for (k, x) in a.iter_mut().enumerate() {
        *x = task_of(m, k);
    }
    a
}

pub fn state_of(m: &[u32]) -> State {
    State {
        tasks: get(m, T),
        versions: get(m, V),
        node: get(m, NODE),
        last: get(m, LAST),
        flag: get(m, FLAG) != 0,
        operation: operations_of(m),
        task: tasks_of(m),
    }
}

fn operations_are(m: &[u32], a: [Operation; 64]) -> bool {
    for (n, x) in a.iter().enumerate() {
        if *x != operation_of(m, n) {
            return false;
        }
    }
    true
}

fn tasks_are(m: &[u32], a: [Task; 8]) -> bool {
    for (k, x) in a.iter().enumerate() {
        if *x != task_of(m, k) {
            return false;
        }
    }
    true
}

pub fn state_is(m: &[u32], s: State) -> bool {
    let a = s.operation;
    let b = s.task;
    let sizes = (s.tasks == get(m, T)) & (s.versions == get(m, V));
    let rest = (s.node == get(m, NODE))
        & (s.last == get(m, LAST))
        & (s.flag == (get(m, FLAG) != 0));
    sizes & rest & operations_are(m, a) & tasks_are(m, b)
}

// An output as the words of a reply: 0 and the line; 1 and the answer, 1 or 2, or 3 and the version, with the own steps; 2 and the refusal's number.
pub fn output_words(o: Output) -> [u32; 3] {
    match o {
        Ok(Progress::At(l)) => [0, l, 0],
        Ok(Progress::End(Answer::Yes, n)) => [1, 1, u32::from(n)],
        Ok(Progress::End(Answer::No, n)) => [1, 2, u32::from(n)],
        Ok(Progress::End(Answer::Version(v), n)) => [3, v, u32::from(n)],
        Err(why) => [2, why.number(), 0],
    }
}

pub fn reply_is(m: &[u32], said: [u32; 3]) -> bool {
    (get(m, REPLY) == said[0]) & (get(m, REPLY + 1) == said[1]) & (get(m, REPLY + 2) == said[2])
}
