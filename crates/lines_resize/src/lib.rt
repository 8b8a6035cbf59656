// RESIZE, lines 20 to 28 of Figure 2. Line 23's calls of INITBUCKET are lines 39 to 51.
#![tactic(auto)]

ghost use Rattle.std.specs.Prelude.{◌≡◌, List, ℕ, ◌*◌, ◌≤◌, ◌<◌, length};
ghost use Rattle.spec.specs.Machine.{machine_of};
ghost use Rattle.spec.specs.Lines.{at_limit};
ghost use Rattle.spec.specs.Entries.{step_running};
ghost use Rattle.lines.specs.Reply.{Gives};
ghost use Rattle.lines.specs.Running.{Runs, resize_lines};
ghost use Rattle.lines_resize.specs.Made.{Sized};

use lines::Moved;
use spec::{Answer, Refusal, State, Task};

// Growing at 32 or shrinking at 1.
#[tactic(auto, unfolding(spec::specs::Lines::at_limit))]
fn at_limit(call: u32, z: u32) -> bool
    ensures { result ≡ at_limit call z }
{
    if call == 4 { z == 32 } else { z == 1 }
}

// t <- head, and the tests of lines 21 and 22
pub fn line20(s: State, k: usize, c: Task, ns: &[u32]) -> Moved
    requires { (k < 8) × (c.line ≡ 20) × (s.head < 64) }
    ensures { (bs : List ℕ) → Gives s k result ns.now bs (step_running (machine_of s ns.now bs) k c) }
{
    let h = s.head + 1;
    let z = pool::size_of(ns, h);
    if at_limit(c.call, z) {
        return lines::end(s, k, c, Answer::Limit);
    }
    lines::go(s, k, Task { t: h, i: 0, ..c }, 39)
}

// t.pred <- nil
pub fn line24(s: State, k: usize, c: Task, ns: &mut [u32]) -> Moved
    requires { (k < 8) × (c.line ≡ 24) }
    ensures { (bs : List ℕ) → Gives s k result ns.new bs (step_running (machine_of s ns.old bs) k c) }
{
    let Some(t) = c.t.checked_sub(1) else {
        return lines::refused(s, Refusal::Spoilt);
    };
    pool::put(ns, pool::NODE_WORDS * t as usize + 1, 0);
    lines::go(s, k, c, 27)
}

// Twice or half the size, if that is a listed one.
#[tactic(auto, using(crate::proofs::Sizes::big), unfolding(spec::specs::Lines::resized))]
fn new_size(call: u32, z: u32) -> Option<u32>
    ensures { Sized call z result }
{
    if call == 4 && 16 < z {
        return None;
    }
    let w = if call == 4 { 2 * z } else { z / 2 };
    sound_records::is_listed_size(w).then_some(w)
}

// t' <- a new node of twice or half the size, with predecessor t
pub fn line27(s: State, k: usize, c: Task, ns: &mut [u32]) -> Moved
    requires { (k < 8) × (c.line ≡ 27) × (s.head < 64) × (s.nodes ≤ 64) × (s.last_node < s.nodes) × (length ns.old ≡ 34 * s.nodes) }
    ensures { (bs : List ℕ) → Gives s k result ns.new bs (step_running (machine_of s ns.old bs) k c) }
{
    if c.t == 0 {
        return lines::refused(s, Refusal::Spoilt);
    }
    let Some(w) = new_size(c.call, pool::size_of(ns, c.t)) else {
        return lines::refused(s, Refusal::Spoilt);
    };
    let Some(f) = held::free_node_of(s, ns) else {
        return lines::refused(s, Refusal::NoRecord);
    };
    pool::new_node(ns, f as usize, w, c.t);
    let mut u = s;
    u.last_node = f;
    let new_node = f + 1;
    lines::go(u, k, Task { new_node, ..c }, 28)
}

// CAS(head, t, t')
pub fn line28(s: State, k: usize, c: Task) -> Moved
    requires { (k < 8) × (c.line ≡ 28) × (s.head < 64) }
    ensures { (ns bs : List ℕ) → Gives s k result ns bs (step_running (machine_of s ns bs) k c) }
{
    if c.t == 0 || c.new_node == 0 {
        return lines::refused(s, Refusal::Spoilt);
    }
    if s.head + 1 == c.t {
        let mut u = s;
        u.head = c.new_node - 1;
        return lines::end(u, k, c, Answer::Done);
    }
    lines::end(s, k, c, Answer::Lost)
}

// The line at which task k stands.
pub fn step(s: State, k: usize, c: Task, ns: &mut [u32]) -> Moved
    requires { (bs : List ℕ) × Runs (machine_of s ns.old bs) k c resize_lines }
    ensures { (bs : List ℕ) → Gives s k result ns.new bs (step_running (machine_of s ns.old bs) k c) }
{
    match c.line {
        20 => line20(s, k, c, ns),
        24 => line24(s, k, c, ns),
        27 => line27(s, k, c, ns),
        _ => line28(s, k, c),
    }
}
