// Refusal 8, as far as it does not depend on the entry called: the state and both pools are sound. The state's numbers first, then
// one pass over each pool, then the tasks.
#![tactic(auto)]

ghost use Rattle.std.specs.Prelude.{◌≡◌, false, not, ◌||◌, [], ◌∷◌, ◌≤◌, eqb};
ghost use Rattle.spec.specs.Lists.{member, every};
ghost use Rattle.spec.specs.Machine.{Machine, machine_of, task_of};
ghost use Rattle.spec.specs.Sound.{node_link, resizes, sound_running, lines_of, sound_task, sound_tasks, sound};
ghost use Rattle.soundness.specs.Told.{told, checked_of};

use spec::{State, Task};

// A line of the call, by its number.
fn line_ok(call: u32, line: u32) -> bool
    ensures { result ≡ member line (lines_of call) }
{
    match call {
        1 | 2 => sound_records::among(
            line,
            &[32, 33, 36, 39, 40, 43, 44, 46, 47, 48, 52, 49, 50, 51],
        ),
        3 => sound_records::among(line, &[12, 13, 15, 16, 17, 18]),
        4 | 5 => sound_records::among(
            line,
            &[20, 24, 27, 28, 39, 40, 43, 44, 46, 47, 48, 52, 49, 50, 51],
        ),
        _ => false,
    }
}

// A resize has no tag.
fn tag_ok(call: u32, tag: u32) -> bool
    ensures { result ≡ (not (resizes call) || eqb tag 0) }
{
    !matches!(call, 4 | 5) || tag == 0
}

fn links_ok(c: Task, ns: &[u32], h: u32) -> bool
    ensures { (y : Machine) → y.nodes ≡ ns.now → y.state.nodes ≡ h → result ≡ every (node_link y) (c.t ∷ c.s ∷ c.new_node ∷ []) }
{
    sound_records::link_ok(ns, h, c.t)
        && sound_records::link_ok(ns, h, c.s)
        && sound_records::link_ok(ns, h, c.new_node)
}

fn running_ok(c: Task, k: u32, t: u32, ns: &[u32], h: u32, b: u32) -> bool
    ensures { (y : Machine) → y.nodes ≡ ns.now → y.state.config.tasks ≡ t → y.state.nodes ≡ h → y.state.buckets ≡ b
        → result ≡ sound_running y k c }
{
    k < t
        && line_ok(c.call, c.line)
        && c.i <= pool::PLACES
        && tag_ok(c.call, c.tag)
        && links_ok(c, ns, h)
        && sound_records::all_within(&[c.b, c.m, c.n, c.new_bucket], b)
}

pub fn task_ok(c: Task, k: u32, t: u32, ns: &[u32], h: u32, b: u32) -> bool
    ensures { (y : Machine) → y.nodes ≡ ns.now → y.state.config.tasks ≡ t → y.state.nodes ≡ h → y.state.buckets ≡ b
        → result ≡ sound_task y k c }
{
    if c.running {
        running_ok(c, k, t, ns, h, b)
    } else {
        sound_numbers::idle_ok(c)
    }
}

// The records of the tasks below T one by one, then those from T on, with no exit on the way; and the record of task j. All in one
// function: each that indexes the records makes a copy of them.
fn tasks_ok(s: State, j: u32, ns: &[u32]) -> Option<Task>
    requires { s.config.tasks ≤ 8 }
    ensures { (y : Machine) → y.nodes ≡ ns.now → y.state ≡ s → result ≡ told (sound_tasks y 0 s.task) (task_of y j) }
{
    let ts = s.task;
    let t = s.config.tasks;
    let h = s.nodes;
    let b = s.buckets;
    let n = t as usize;
    for k in 0..n {
        if !task_ok(ts[k], k as u32, t, ns, h, b) {
            return None;
        }
    }
    let mut all = true;
    for k in n..8 {
        all &= sound_numbers::unused_ok(ts[k]);
    }
    if !all {
        return None;
    }
    let task = if j < 8 { ts[j as usize] } else { state::idle() };
    Some(task)
}

// Refusal 8, as far as it does not depend on the entry called: of sound memory the record of task j, an idle one where there is no task j.
pub fn check(s: State, j: u32, ns: &[u32], bs: &[u32]) -> Option<Task>
    ensures { result ≡ checked_of (machine_of s ns.now bs.now) j }
{
    if sound_numbers::numbers_ok(s, ns, bs)
        && sound_records::nodes_ok(ns, s.nodes, s.buckets)
        && sound_records::buckets_ok(bs, s.buckets as usize)
    {
        tasks_ok(s, j, ns)
    } else {
        None
    }
}

// Refusal 8 alone.
pub fn sound(s: State, ns: &[u32], bs: &[u32]) -> bool
    ensures { result ≡ sound (machine_of s ns.now bs.now) }
{
    check(s, 0, ns, bs).is_some()
}
