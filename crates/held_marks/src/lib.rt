// Marks of held records: of a link, of a node with its predecessors, of a task's buckets; and the first record without one, going round.
#![tactic(auto)]

ghost use Rattle.std.specs.Prelude.{◌≡◌, List, [], ◌∷◌, ℕ, ◌≤◌, ◌<◌, length};
ghost use Rattle.spec.specs.Held.{chain, task_buckets, first_free, cyclic_order};
ghost use Rattle.held_marks.specs.Marks.{Marks, Exactly, link_of};

use spec::Task;

// The mark of a link, if there is one.
pub fn mark(m: &mut [bool], l: u32)
    ensures { Marks m.old m.new (l ∷ []) }
{
    if l != 0 && l as usize <= m.len() {
        m[l as usize - 1] = true;
    }
}

// A node and its predecessors, h at most.
pub fn mark_chain(ns: &[u32], m: &mut [bool], h: u32, from: u32)
    ensures { Marks m.old m.new (chain ns.now h from) }
{
    let mut at = from;
    for _ in 0..h {
        if at == 0 {
            return;
        }
        mark(m, at);
        at = pool::pred_of(ns, at);
    }
}

// The buckets that a running task has.
pub fn mark_task_buckets(m: &mut [bool], c: Task)
    ensures { Marks m.old m.new (task_buckets c) }
{
    if c.running {
        mark(m, c.b);
        mark(m, c.m);
        mark(m, c.n);
        mark(m, c.new_bucket);
    }
}

// The number of the first of n records that is not marked after the last, going round; None if all are.
pub fn first_unmarked(m: &[bool], n: u32, last: u32) -> Option<u32>
    requires { (n ≤ length m.now) × (n ≤ 1024) × (last < n) }
    ensures { (ls : List ℕ) → Exactly m.now ls → link_of result ≡ first_free ls (cyclic_order n last) }
{
    for j in 1..=n {
        let k = (last + j) % n;
        if !m[k as usize] {
            return Some(k);
        }
    }
    None
}
