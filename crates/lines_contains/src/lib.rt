// CONTAINS, lines 12 to 18 of Figure 2; and the reads that it shares with APPLY, lines 12 and 32, and 13, 16, 17 and 33.
#![tactic(auto)]

ghost use Rattle.std.specs.Prelude.{◌≡◌, List, [], ◌∷◌, true, ℕ, ◌-◌, ◌*◌, ◌≤◌, ◌<◌, length, drop};
ghost use Rattle.spec.specs.Sound.{sound_bucket};
ghost use Rattle.spec.specs.Machine.{machine_of};
ghost use Rattle.spec.specs.Entries.{accept, step_running};
ghost use Rattle.laws.specs.StepAt.{through, tested};
ghost use Rattle.lines.specs.Reply.{Gives};
ghost use Rattle.lines.specs.Running.{Runs, contains_lines};
ghost use Rattle.lines_contains.specs.Reads.{reads_head, reads_bucket};

use lines::Moved;
use spec::{Answer, Refusal, State, Task};

// t <- head, and on to line l
pub fn read_head(s: State, k: usize, c: Task, l: u32) -> Moved
    requires { (k < 8) × (s.head < 64) }
    ensures { (ns bs : List ℕ) → Gives s k result ns bs (accept (machine_of s ns bs) k c.own (reads_head (machine_of s ns bs) c l)) }
{
    lines::go(s, k, Task { t: s.head + 1, ..c }, l)
}

// b <- node.buckets[k mod node.size], and on to the line `found`; if b = nil to the line `missing`, with this i
pub fn read_bucket(
    s: State,
    k: usize,
    c: Task,
    node: u32,
    found: u32,
    i: u32,
    missing: u32,
    ns: &[u32],
) -> Moved
    requires { k < 8 }
    ensures { (bs : List ℕ) → Gives s k result ns.now bs (tested (through node ∷ []) (machine_of s ns.now bs) k c
        (reads_bucket (machine_of s ns.now bs) c node found i missing)) }
{
    if node == 0 {
        return lines::refused(s, Refusal::Spoilt);
    }
    let b = pool::place_for(ns, node, s.config, c.tag);
    if b == 0 {
        return lines::go(s, k, Task { b, i, ..c }, missing);
    }
    lines::go(s, k, Task { b, ..c }, found)
}

// s <- t.pred
pub fn line15(s: State, k: usize, c: Task, ns: &[u32]) -> Moved
    requires { (k < 8) × (c.line ≡ 15) }
    ensures { (bs : List ℕ) → Gives s k result ns.now bs (step_running (machine_of s ns.now bs) k c) }
{
    if c.t == 0 {
        return lines::refused(s, Refusal::Spoilt);
    }
    let p = pool::pred_of(ns, c.t);
    let l = if p == 0 { 17 } else { 16 };
    lines::go(s, k, Task { s: p, ..c }, l)
}

// return HASMEMBER(b, k)
pub fn line18(s: State, k: usize, c: Task, bs: &[u32]) -> Moved
    requires { (k < 8) × (c.line ≡ 18) × (c.b ≤ 1024) × (66 * c.b ≤ length bs.now)
        × ((0 < c.b) → sound_bucket (drop (66 * (c.b - 1)) bs.now) ≡ true) }
    ensures { (ns : List ℕ) → Gives s k result ns bs.now (step_running (machine_of s ns bs.now) k c) }
{
    let Some(j) = c.b.checked_sub(1) else {
        return lines::refused(s, Refusal::Spoilt);
    };
    let a = if pool::buckets::has_at(bs, j as usize, c.tag) {
        Answer::Yes
    } else {
        Answer::No
    };
    lines::end(s, k, c, a)
}

// The line at which task k stands.
pub fn step(s: State, k: usize, c: Task, ns: &[u32], bs: &[u32]) -> Moved
    requires { Runs (machine_of s ns.now bs.now) k c contains_lines }
    ensures { Gives s k result ns.now bs.now (step_running (machine_of s ns.now bs.now) k c) }
{
    match c.line {
        // t <- head
        12 => read_head(s, k, c, 13),
        // b <- t.buckets[k mod t.size]; if b = nil (line 14) go on at 15
        13 => read_bucket(s, k, c, c.t, 18, c.i, 15, ns),
        15 => line15(s, k, c, ns),
        // if s is there: b <- s.buckets[k mod s.size]
        16 => read_bucket(s, k, c, c.s, 18, c.i, 18, ns),
        // else b <- t.buckets[k mod t.size], read again
        17 => read_bucket(s, k, c, c.t, 18, c.i, 18, ns),
        _ => line18(s, k, c, bs),
    }
}
