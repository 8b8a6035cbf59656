// The state of the cooperative bucket, a task's record and an operation: built, read and changed here and nowhere else in the code, as
// specs/Machine of the definitions does. Every function takes any number: what is past the end reads as zeros, and a write there changes
// nothing.
#![tactic(auto)]

ghost use Rattle.std.specs.Prelude.{◌≡◌, List, true, ℕ};
ghost use Rattle.coop_spec.specs.Machine.{machine_of, never_invoked, with_type, operation_of, set_operation, with_flag, with_node};
ghost use Rattle.coop_spec.specs.Machine.{idle, fresh_task, task_of, set_task, state_of};
ghost use Rattle.coop_spec.specs.Sound.{invokes};
ghost use Rattle.coop_spec.specs.Words.{set_resp, set_done, set_returned, apply};

use coop_spec::{Operation, State, Task};

// ---- operations

const OPERATIONS: u32 = 64;

// An operation never invoked.
#[tactic(auto, unfolding(coop_spec::specs::Machine::never_invoked))]
fn never() -> Operation
    ensures { result ≡ never_invoked }
{
    Operation {
        kind: 0,
        tag: 0,
        resp: false,
        done: false,
        returned: false,
    }
}

#[tactic(auto, unfolding(coop_spec::specs::Machine::operation_of))]
pub fn operation(s: State, n: u32) -> Operation
    ensures { (vs : List ℕ) → result ≡ operation_of (machine_of s vs) n }
{
    if OPERATIONS <= n {
        return never();
    }
    s.operation[n as usize]
}

#[tactic(auto, unfolding(coop_spec::specs::Machine::set_operation, coop_spec::specs::Machine::with_operations, coop_spec::specs::Machine::with_state))]
fn with_operation(s: State, n: u32, op: Operation) -> State
    ensures { (vs : List ℕ) → machine_of result vs ≡ set_operation n op (machine_of s vs) }
{
    let mut t = s;
    if n < OPERATIONS {
        t.operation[n as usize] = op;
    }
    t
}

// Operation n gets its type and tag.
#[tactic(auto, unfolding(coop_spec::specs::Machine::with_type))]
pub fn set_type(s: State, n: u32, kind: u32, tag: u32) -> State
    ensures { (vs : List ℕ) → machine_of result vs ≡ set_operation n (with_type kind tag (operation_of (machine_of s vs) n)) (machine_of s vs) }
{
    let op = Operation {
        kind,
        tag,
        ..operation(s, n)
    };
    with_operation(s, n, op)
}

#[tactic(auto, unfolding(coop_spec::specs::Words::apply, coop_spec::specs::Machine::with_resp))]
pub fn set_resp(s: State, n: u32, b: bool) -> State
    ensures { (vs : List ℕ) → machine_of result vs ≡ apply (set_resp n b) (machine_of s vs) }
{
    let op = Operation {
        resp: b,
        ..operation(s, n)
    };
    with_operation(s, n, op)
}

#[tactic(auto, unfolding(coop_spec::specs::Words::apply, coop_spec::specs::Machine::as_done))]
pub fn set_done(s: State, n: u32) -> State
    ensures { (vs : List ℕ) → machine_of result vs ≡ apply (set_done n) (machine_of s vs) }
{
    let op = Operation {
        done: true,
        ..operation(s, n)
    };
    with_operation(s, n, op)
}

#[tactic(auto, unfolding(coop_spec::specs::Words::apply, coop_spec::specs::Machine::as_returned))]
pub fn set_returned(s: State, n: u32) -> State
    ensures { (vs : List ℕ) → machine_of result vs ≡ apply (set_returned n) (machine_of s vs) }
{
    let op = Operation {
        returned: true,
        ..operation(s, n)
    };
    with_operation(s, n, op)
}

// ---- a task's record

const TASKS: u32 = 8;

// The numbers of the calls in a task's record (`call_number`). Those of the two invokes are the kinds of their operations too.
pub const INVOKE_INSERT: u32 = 1;

pub const INVOKE_REMOVE: u32 = 2;

pub const FREEZE: u32 = 3;

pub const HAS_MEMBER: u32 = 4;

pub const GET_RESPONSE: u32 = 5;

// A task that runs nothing.
#[tactic(auto, unfolding(coop_spec::specs::Machine::idle))]
pub fn idle() -> Task
    ensures { result ≡ idle }
{
    Task {
        running: false,
        call: 0,
        op: 0,
        tag: 0,
        line: 0,
        back: 0,
        own: 0,
        o: 0,
        helped: 0,
    }
}

// A running task: a call's number, its operation, its tag and its first line.
#[tactic(auto, unfolding(coop_spec::specs::Machine::idle, coop_spec::specs::Machine::fresh_task))]
pub fn fresh_task(call: u32, op: u32, tag: u32, line: u32) -> Task
    ensures { result ≡ fresh_task call op tag line }
{
    Task {
        running: true,
        call,
        op,
        tag,
        line,
        ..idle()
    }
}

// The call is an invoke, by its number.
pub fn is_invoke(call: u32) -> bool
    ensures { result ≡ invokes call }
{
    matches!(call, INVOKE_INSERT | INVOKE_REMOVE)
}

#[tactic(auto, unfolding(coop_spec::specs::Machine::task_of))]
pub fn task(s: State, k: u32) -> Task
    ensures { (vs : List ℕ) → result ≡ task_of (machine_of s vs) k }
{
    if TASKS <= k {
        return idle();
    }
    s.task[k as usize]
}

#[tactic(auto, unfolding(coop_spec::specs::Machine::set_task, coop_spec::specs::Machine::with_task, coop_spec::specs::Machine::with_state))]
pub fn with_task(s: State, k: u32, c: Task) -> State
    ensures { (vs : List ℕ) → machine_of result vs ≡ set_task k c (machine_of s vs) }
{
    let mut t = s;
    if k < TASKS {
        t.task[k as usize] = c;
    }
    t
}

// ---- the state

// As an opening leaves it, with v versions; of zeros with no task and no version.
#[tactic(auto, unfolding(coop_spec::specs::Machine::state_of))]
pub fn fresh_state(t: u32, v: u32) -> State
    ensures { result ≡ state_of t v }
{
    State {
        tasks: t,
        versions: v,
        node: 0,
        last: 0,
        flag: false,
        operation: [never(); 64],
        task: [idle(); 8],
    }
}

// The bucket's flag is raised.
#[tactic(auto, unfolding(coop_spec::specs::Machine::with_flag, coop_spec::specs::Machine::with_state))]
pub fn with_flag(s: State) -> State
    ensures { (vs : List ℕ) → machine_of result vs ≡ with_flag true (machine_of s vs) }
{
    State { flag: true, ..s }
}

// The bucket has version k, which is the last taken.
#[tactic(auto, unfolding(coop_spec::specs::Machine::with_node, coop_spec::specs::Machine::with_state))]
pub fn with_node(s: State, k: u32) -> State
    ensures { (vs : List ℕ) → machine_of result vs ≡ with_node k (machine_of s vs) }
{
    State {
        node: k,
        last: k,
        ..s
    }
}
