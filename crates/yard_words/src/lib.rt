// The state as words lent by a caller outside Rattle, and back: docs/FITTERS.md has the order, specs/StateWords the definitions. The words are a slice, as C
// lends them, and their number a clause: a slice becomes an array's reference only by an Option of a reference, which no function may give back on a board.
#![tactic(auto)]

ghost use Rattle.std.specs.Prelude.{◌≡◌, true, ◌+◌, ◌≤◌, ◌<◌, length};
ghost use Rattle.spec.specs.Words.{overwrite};
ghost use Rattle.state_words.specs.StateWords.{bit, first_words, task_words, state_words, task_at, tasks_of_words, state_of_words, task_fits, state_fits};
ghost use Rattle.state_words.specs.Changes.{changed};

use spec::{Config, State, Task};

// The words of a state, where those of its tasks begin, and the words of a task.
pub const STATE_WORDS: usize = 113;

const TASKS: usize = 9;

const TASK_WORDS: usize = 13;

// The task whose words begin there.
#[tactic(auto, unfolding(state_words::specs::StateWords::task_at))]
pub fn task_at(w: &[u32], at: usize) -> Task
    requires { at + 13 ≤ length w.now }
    ensures { result ≡ task_at w.now at }
{
    Task {
        running: w[at] != 0,
        call: w[at + 1],
        tag: w[at + 2],
        line: w[at + 3],
        i: w[at + 4],
        own: (w[at + 5] % 65536) as u16,
        t: w[at + 6],
        s: w[at + 7],
        b: w[at + 8],
        m: w[at + 9],
        n: w[at + 10],
        new_node: w[at + 11],
        new_bucket: w[at + 12],
    }
}

// Its tasks.
fn tasks_of_words(w: &[u32]) -> [Task; 8]
    requires { length w.now ≡ 113 }
    ensures { result ≡ tasks_of_words w.now }
{
    let mut all = [task_at(w, TASKS); 8];
    for (k, c) in all.iter_mut().enumerate() {
        *c = task_at(w, TASKS + TASK_WORDS * k);
    }
    all
}

// What these words keep of the opening.
#[tactic(auto, unfolding(state_words::specs::StateWords::state_of_words))]
pub fn config_of(w: &[u32]) -> Config
    requires { length w.now ≡ 113 }
    ensures { result ≡ (state_of_words w.now).config }
{
    Config {
        tasks: w[0],
        version: w[1],
        zero_withdrawn: w[2] != 0,
    }
}

// The state that these words are.
#[tactic(auto, unfolding(state_words::specs::StateWords::state_of_words))]
pub fn state_of_words(w: &[u32]) -> State
    requires { length w.now ≡ 113 }
    ensures { result ≡ state_of_words w.now }
{
    State {
        config: config_of(w),
        nodes: w[3],
        buckets: w[4],
        head: w[5],
        last_node: w[6],
        last_bucket: w[7],
        chosen: w[8],
        task: tasks_of_words(w),
    }
}

// Whether a task has these words.
#[tactic(auto, unfolding(state_words::specs::StateWords::task_fits, state_words::specs::StateWords::bit_fits, state_words::specs::StateWords::own_fits))]
fn task_fits(w: &[u32], at: usize) -> bool
    requires { at + 13 ≤ length w.now }
    ensures { result ≡ task_fits w.now at }
{
    (w[at] <= 1) & (w[at + 5] <= 65535)
}

// Whether a state has these words.
pub fn state_fits(w: &[u32]) -> bool
    ensures { result ≡ state_fits w.now }
{
    if w.len() != STATE_WORDS {
        return false;
    }
    let mut fits = w[2] <= 1;
    for k in 0..8 {
        fits &= task_fits(w, TASKS + TASK_WORDS * k);
    }
    fits
}

// A truth value's word.
pub fn bit(b: bool) -> u32
    ensures { result ≡ bit b }
{
    u32::from(b)
}

// The words before a state's tasks, written from the first on.
#[tactic(auto, unfolding(spec::specs::Words::overwrite))]
fn put_first(w: &mut [u32], s: State)
    requires { length w.old ≡ 113 }
    ensures { w.new ≡ overwrite w.old 0 (first_words s) }
{
    let g = s.config;
    w[..TASKS].copy_from_slice(&[
        g.tasks,
        g.version,
        bit(g.zero_withdrawn),
        s.nodes,
        s.buckets,
        s.head,
        s.last_node,
        s.last_bucket,
        s.chosen,
    ])
}

// A task's words, written from there on.
fn put_task(w: &mut [u32], at: usize, c: Task)
    requires { at + 13 ≤ length w.old }
    ensures { w.new ≡ overwrite w.old at (task_words c) }
{
    w[at..at + TASK_WORDS].copy_from_slice(&[
        bit(c.running),
        c.call,
        c.tag,
        c.line,
        c.i,
        u32::from(c.own),
        c.t,
        c.s,
        c.b,
        c.m,
        c.n,
        c.new_node,
        c.new_bucket,
    ])
}

// A state's words.
pub fn put_state(w: &mut [u32], s: State)
    requires { length w.old ≡ 113 }
    ensures { w.new ≡ state_words s }
{
    put_first(w, s);
    for (k, c) in s.task.iter().enumerate() {
        put_task(w, TASKS + TASK_WORDS * k, *c);
    }
}

// What a start or a step of task k changes of a state's words.
pub fn put_changes(w: &mut [u32], k: u32, head: u32, node: u32, bucket: u32, c: Task)
    requires { (length w.old ≡ 113) × (state_fits w.old ≡ true) × (k < 8) }
    ensures { w.new ≡ state_words (changed (state_of_words w.old) k head node bucket c) }
{
    w[5] = head;
    w[6] = node;
    w[7] = bucket;
    put_task(w, TASKS + TASK_WORDS * (k as usize), c)
}
