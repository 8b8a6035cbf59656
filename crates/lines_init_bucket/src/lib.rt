// INITBUCKET, lines 39, 40, 50 and 51 of Figure 2: filling place i of t. What is put there is made by lines 43 to 49, in `lines_gather`.
#![tactic(auto)]

ghost use Rattle.std.specs.Prelude.{◌≡◌, List, ℕ, ◌<◌};
ghost use Rattle.spec.specs.Sound.{resizes};
ghost use Rattle.spec.specs.Machine.{machine_of};
ghost use Rattle.spec.specs.declared.State.{State};
ghost use Rattle.spec.specs.Lines.{after_40};
ghost use Rattle.spec.specs.Entries.{step_running};
ghost use Rattle.lines.specs.Reply.{Gives};
ghost use Rattle.lines.specs.Running.{Runs, init_bucket_lines};

use lines::Moved;
use lines_gather::Field;
use spec::{Refusal, State, Task};

// The line after 40, where t's predecessor is p.
#[tactic(auto, unfolding(spec::specs::Lines::after_40, spec::specs::Listed::size_of))]
fn after_40(c: Task, p: u32, ns: &[u32]) -> u32
    ensures { (s : State) (bs : List ℕ) → result ≡ after_40 (machine_of s ns.now bs) c p }
{
    if c.b != 0 || p == 0 {
        51
    } else if pool::size_of(ns, c.t) as usize == 2 * pool::size_of(ns, p) as usize {
        43
    } else {
        46
    }
}

// s <- t.pred, and the tests of lines 41 and 42
pub fn line40(s: State, k: usize, c: Task, ns: &[u32]) -> Moved
    requires { (k < 8) × (c.line ≡ 40) }
    ensures { (bs : List ℕ) → Gives s k result ns.now bs (step_running (machine_of s ns.now bs) k c) }
{
    if c.t == 0 {
        return lines::refused(s, Refusal::Spoilt);
    }
    let p = pool::pred_of(ns, c.t);
    lines::go(s, k, Task { s: p, ..c }, after_40(c, p, ns))
}

// CAS(t.buckets[i], nil, b')
pub fn line50(s: State, k: usize, c: Task, ns: &mut [u32]) -> Moved
    requires { (k < 8) × (c.line ≡ 50) }
    ensures { (bs : List ℕ) → Gives s k result ns.new bs (step_running (machine_of s ns.old bs) k c) }
{
    let Some(t) = c.t.checked_sub(1) else {
        return lines::refused(s, Refusal::Spoilt);
    };
    if c.new_bucket == 0 || pool::size_at(ns, t) <= c.i {
        return lines::refused(s, Refusal::Spoilt);
    }
    if pool::place_at(ns, t, c.i) == 0 {
        let place = pool::NODE_WORDS * t as usize + 2 + c.i as usize;
        pool::put(ns, place, c.new_bucket);
    }
    lines::go(s, k, c, 51)
}

fn is_resize(call: u32) -> bool
    ensures { result ≡ resizes call }
{
    matches!(call, 4 | 5)
}

// return t.buckets[i]
pub fn line51(s: State, k: usize, c: Task, ns: &[u32]) -> Moved
    requires { (k < 8) × (c.line ≡ 51) }
    ensures { (bs : List ℕ) → Gives s k result ns.now bs (step_running (machine_of s ns.now bs) k c) }
{
    let z = pool::size_of(ns, c.t);
    if c.t == 0 || z <= c.i {
        return lines::refused(s, Refusal::Spoilt);
    }
    let x = Task {
        b: 0,
        s: 0,
        m: 0,
        n: 0,
        new_bucket: 0,
        ..c
    };
    if is_resize(c.call) {
        let i = c.i + 1;
        let l = if i < z { 39 } else { 24 };
        return lines::go(s, k, Task { i, ..x }, l);
    }
    let b = pool::place_of(ns, c.t, c.i);
    lines::go(s, k, Task { b, ..x }, 36)
}

// The line at which task k stands; those from 43 to 49, and 52, are in `lines_gather`.
pub fn step(s: State, k: usize, c: Task, ns: &mut [u32], bs: &mut [u32]) -> Moved
    requires { Runs (machine_of s ns.old bs.old) k c init_bucket_lines }
    ensures { Gives s k result ns.new bs.new (step_running (machine_of s ns.old bs.old) k c) }
{
    match c.line {
        // b <- t.buckets[i]
        39 => lines_gather::read_place(s, k, c, Field::B, c.t, c.i as usize, 40, ns),
        40 => line40(s, k, c, ns),
        50 => line50(s, k, c, ns),
        51 => line51(s, k, c, ns),
        _ => lines_gather::step(s, k, c, ns, bs),
    }
}
