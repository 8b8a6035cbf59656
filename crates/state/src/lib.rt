// A task's record and the state are built here and nowhere else in the code, as specs/Machine of the definitions does, so that a
// later field is added in this file alone.
#![tactic(auto)]

ghost use Rattle.std.specs.Prelude.{◌≡◌};
ghost use Rattle.spec.specs.Machine.{config_of, with_version, with_zero_withdrawn, zero_config, idle, fresh_task, state_of};

use spec::{Config, State, Task};

// ---- a task's record

// A task that runs nothing.
#[tactic(auto, unfolding(spec::specs::Machine::idle))]
pub fn idle() -> Task
    ensures { result ≡ idle }
{
    Task {
        running: false,
        call: 0,
        tag: 0,
        line: 0,
        i: 0,
        own: 0,
        t: 0,
        s: 0,
        b: 0,
        m: 0,
        n: 0,
        new_node: 0,
        new_bucket: 0,
    }
}

// A running task: a call's number, its tag and its first line; the rest zeros and empty places.
#[tactic(auto, unfolding(spec::specs::Machine::fresh_task, spec::specs::Machine::idle))]
pub fn fresh_task(call: u32, tag: u32, line: u32) -> Task
    ensures { result ≡ fresh_task call tag line }
{
    Task {
        running: true,
        call,
        tag,
        line,
        ..idle()
    }
}

// ---- the state

// What an opening is given besides the slices: T, version 1, and the old rule for tag 0.
pub fn config(tasks: u32) -> Config
    ensures { result ≡ config_of tasks }
{
    Config {
        tasks,
        version: 1,
        zero_withdrawn: false,
    }
}

// The same of another version.
pub fn with_version(g: Config, version: u32) -> Config
    ensures { result ≡ with_version version g }
{
    Config { version, ..g }
}

// The same under the new rule, by which tag 0 is withdrawn, or under the old one.
pub fn with_zero_withdrawn(g: Config, withdrawn: bool) -> Config
    ensures { result ≡ with_zero_withdrawn withdrawn g }
{
    Config {
        zero_withdrawn: withdrawn,
        ..g
    }
}

// That of a state of zeros.
pub fn zero_config() -> Config
    ensures { result ≡ zero_config }
{
    Config {
        tasks: 0,
        version: 0,
        zero_withdrawn: false,
    }
}

// The state as an opening leaves it, with no task running: h nodes and b buckets. The last task chosen is T − 1, before which task 0
// comes, going round.
#[tactic(auto, unfolding(spec::specs::Machine::state_of))]
pub fn fresh_state(g: Config, h: u32, b: u32) -> State
    ensures { result ≡ state_of g h b }
{
    let chosen = g.tasks.saturating_sub(1);
    State {
        config: g,
        nodes: h,
        buckets: b,
        head: 0,
        last_node: 0,
        last_bucket: 0,
        chosen,
        task: [idle(); 8],
    }
}

// The state of zeros.
pub fn zero_state() -> State
    ensures { result ≡ state_of zero_config 0 0 }
{
    fresh_state(zero_config(), 0, 0)
}
