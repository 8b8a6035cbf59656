// The cooperative bucket's state as words lent by a caller outside Rattle, and back: include/coop.h has the order, specs/StateWords of coop_state_words the
// definitions.
#![tactic(auto)]

ghost use Rattle.std.specs.Prelude.{◌≡◌, ◌+◌, ◌≤◌, length};
ghost use Rattle.spec.specs.Words.{overwrite};
ghost use Rattle.coop_state_words.specs.StateWords.{operation_words, task_words, first_words, operations_words, tasks_words, state_words};
ghost use Rattle.coop_state_words.specs.StateWords.{operation_at, task_at, operations_of_words, tasks_of_words, state_of_words};
ghost use Rattle.coop_state_words.specs.StateWords.{operation_fits, task_fits, operations_fit, tasks_fit, state_fits};

use coop_spec::{Operation, State, Task};

// The words of a state, and where those of its operations and of its tasks begin.
pub const STATE_WORDS: usize = 397;

const OPERATIONS: usize = 5;

const TASKS: usize = 325;

// The words of an operation and of a task.
const OPERATION_WORDS: usize = 5;

const TASK_WORDS: usize = 9;

// ---- the state that words are

// The operation whose words begin there.
#[tactic(auto, unfolding(coop_state_words::specs::StateWords::operation_at))]
fn operation_at(w: &[u32], at: usize) -> Operation
    requires { at + 5 ≤ length w.now }
    ensures { result ≡ operation_at w.now at }
{
    Operation {
        kind: w[at],
        tag: w[at + 1],
        resp: w[at + 2] != 0,
        done: w[at + 3] != 0,
        returned: w[at + 4] != 0,
    }
}

// The task whose words begin there.
#[tactic(auto, unfolding(coop_state_words::specs::StateWords::task_at))]
fn task_at(w: &[u32], at: usize) -> Task
    requires { at + 9 ≤ length w.now }
    ensures { result ≡ task_at w.now at }
{
    Task {
        running: w[at] != 0,
        call: w[at + 1],
        op: w[at + 2],
        tag: w[at + 3],
        line: w[at + 4],
        back: w[at + 5],
        own: (w[at + 6] % 65536) as u16,
        o: w[at + 7],
        helped: w[at + 8],
    }
}

fn operations_of_words(w: &[u32]) -> [Operation; 64]
    requires { length w.now ≡ 397 }
    ensures { result ≡ operations_of_words w.now }
{
    let mut all = [operation_at(w, OPERATIONS); 64];
    for k in 0..64 {
        let op = operation_at(w, OPERATIONS + OPERATION_WORDS * k);
        all[k] = op;
    }
    all
}

fn tasks_of_words(w: &[u32]) -> [Task; 8]
    requires { length w.now ≡ 397 }
    ensures { result ≡ tasks_of_words w.now }
{
    let mut all = [task_at(w, TASKS); 8];
    for k in 0..8 {
        let c = task_at(w, TASKS + TASK_WORDS * k);
        all[k] = c;
    }
    all
}

// The state that these words are.
#[tactic(auto, unfolding(coop_state_words::specs::StateWords::state_of_words))]
pub fn state_of_words(w: &[u32]) -> State
    requires { length w.now ≡ 397 }
    ensures { result ≡ state_of_words w.now }
{
    let operation = operations_of_words(w);
    let task = tasks_of_words(w);
    State {
        tasks: w[0],
        versions: w[1],
        node: w[2],
        last: w[3],
        flag: w[4] != 0,
        operation,
        task,
    }
}

// ---- whether a state has these words

#[tactic(auto, unfolding(coop_state_words::specs::StateWords::operation_fits, state_words::specs::StateWords::bit_fits))]
fn operation_fits(w: &[u32], at: usize) -> bool
    requires { at + 5 ≤ length w.now }
    ensures { result ≡ operation_fits w.now at }
{
    (w[at + 2] <= 1) & (w[at + 3] <= 1) & (w[at + 4] <= 1)
}

#[tactic(auto, unfolding(coop_state_words::specs::StateWords::task_fits, state_words::specs::StateWords::bit_fits, state_words::specs::StateWords::own_fits))]
fn task_fits(w: &[u32], at: usize) -> bool
    requires { at + 9 ≤ length w.now }
    ensures { result ≡ task_fits w.now at }
{
    (w[at] <= 1) & (w[at + 6] <= 65535)
}

fn operations_fit(w: &[u32]) -> bool
    requires { length w.now ≡ 397 }
    ensures { result ≡ operations_fit w.now }
{
    (0..64).all(|k| operation_fits(w, OPERATIONS + OPERATION_WORDS * k))
}

fn tasks_fit(w: &[u32]) -> bool
    requires { length w.now ≡ 397 }
    ensures { result ≡ tasks_fit w.now }
{
    (0..8).all(|k| task_fits(w, TASKS + TASK_WORDS * k))
}

// Whether a state has these words.
#[tactic(auto, unfolding(coop_state_words::specs::StateWords::state_fits, state_words::specs::StateWords::bit_fits))]
pub fn state_fits(w: &[u32]) -> bool
    ensures { result ≡ state_fits w.now }
{
    w.len() == STATE_WORDS && (w[4] <= 1) & operations_fit(w) & tasks_fit(w)
}

// ---- a state's words

fn put_operation(w: &mut [u32], at: usize, op: Operation)
    requires { at + 5 ≤ length w.old }
    ensures { w.new ≡ overwrite w.old at (operation_words op) }
{
    w[at..at + OPERATION_WORDS].copy_from_slice(&[
        op.kind,
        op.tag,
        u32::from(op.resp),
        u32::from(op.done),
        u32::from(op.returned),
    ])
}

fn put_task(w: &mut [u32], at: usize, c: Task)
    requires { at + 9 ≤ length w.old }
    ensures { w.new ≡ overwrite w.old at (task_words c) }
{
    w[at..at + TASK_WORDS].copy_from_slice(&[
        u32::from(c.running),
        c.call,
        c.op,
        c.tag,
        c.line,
        c.back,
        u32::from(c.own),
        c.o,
        c.helped,
    ])
}

// The words before a state's operations, from the first on.
#[tactic(auto, unfolding(spec::specs::Words::overwrite))]
fn put_first(w: &mut [u32], s: State)
    requires { length w.old ≡ 397 }
    ensures { w.new ≡ overwrite w.old 0 (first_words s) }
{
    w[..OPERATIONS].copy_from_slice(&[s.tasks, s.versions, s.node, s.last, u32::from(s.flag)])
}

fn put_operations(w: &mut [u32], s: State)
    requires { length w.old ≡ 397 }
    ensures { w.new ≡ overwrite w.old 5 (operations_words s.operation) }
{
    for k in 0..64 {
        put_operation(w, OPERATIONS + OPERATION_WORDS * k, s.operation[k]);
    }
}

fn put_tasks(w: &mut [u32], s: State)
    requires { length w.old ≡ 397 }
    ensures { w.new ≡ overwrite w.old 325 (tasks_words s.task) }
{
    for k in 0..8 {
        put_task(w, TASKS + TASK_WORDS * k, s.task[k]);
    }
}

// A state's words.
pub fn put_state(w: &mut [u32], s: State)
    requires { length w.old ≡ 397 }
    ensures { w.new ≡ state_words s }
{
    put_first(w, s);
    put_operations(w, s);
    put_tasks(w, s)
}
