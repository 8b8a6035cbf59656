// Which nodes and buckets are held, as marks, and which one is taken next: the first that is not held after the last taken, going
// round. Each held node is marked first, and then its places are walked once.
#![tactic(auto)]

ghost use Rattle.std.specs.Prelude.{◌≡◌, List, ℕ, ◌<◌};
ghost use Rattle.spec.specs.Lists.{concat_map};
ghost use Rattle.spec.specs.Machine.{machine_of};
ghost use Rattle.spec.specs.Words.{places};
ghost use Rattle.spec.specs.Held.{chain, task_nodes, task_buckets, held_nodes};
ghost use Rattle.held_marks.specs.Marks.{Marks, link_of};
ghost use Rattle.held.specs.Held.{marked_numbers, node_to_take, bucket_to_take};

use spec::{State, Task};

// A mark for each record that there may be.
const NODES: usize = pool::MOST_NODES as usize;

const BUCKETS: usize = pool::MOST_BUCKETS as usize;

// ---- nodes

fn mark_task_nodes(ns: &[u32], m: &mut [bool], h: u32, c: Task)
    ensures { Marks m.old m.new (concat_map (chain ns.now h) (task_nodes c)) }
{
    if c.running {
        held_marks::mark_chain(ns, m, h, c.t);
        held_marks::mark_chain(ns, m, h, c.s);
        held_marks::mark_chain(ns, m, h, c.new_node);
    }
}

fn mark_nodes(s: State, ns: &[u32], m: &mut [bool])
    requires { s.head < 64 }
    ensures { (bs : List ℕ) → Marks m.old m.new (held_nodes (machine_of s ns.now bs)) }
{
    let h = s.nodes;
    held_marks::mark_chain(ns, m, h, s.head + 1);
    for c in s.task {
        mark_task_nodes(ns, m, h, c);
    }
}

// ---- buckets

// The buckets that node k places.
fn mark_places(ns: &[u32], m: &mut [bool], k: u32)
    ensures { Marks m.old m.new (places ns.now k) }
{
    for i in 0..pool::PLACES {
        held_marks::mark(m, pool::place_at(ns, k, i));
    }
}

// The buckets that the marked nodes place.
fn mark_placed(ns: &[u32], nodes: [bool; NODES], m: &mut [bool])
    ensures { Marks m.old m.new (concat_map (places ns.now) (marked_numbers nodes)) }
{
    for k in 0..pool::MOST_NODES {
        if nodes[k as usize] {
            mark_places(ns, m, k);
        }
    }
}

fn mark_own(s: State, m: &mut [bool])
    ensures { Marks m.old m.new (concat_map task_buckets s.task) }
{
    for c in s.task {
        held_marks::mark_task_buckets(m, c);
    }
}

// ---- taking

// The number of the node to be taken, None if all are held or a number of the state is out of bounds.
pub fn free_node_of(s: State, ns: &[u32]) -> Option<u32>
    ensures { (bs : List ℕ) → link_of result ≡ node_to_take (machine_of s ns.now bs) }
{
    let h = s.nodes;
    let last = s.last_node;
    if pool::MOST_NODES <= s.head || pool::MOST_NODES < h || h <= last {
        return None;
    }
    let mut nodes = [false; NODES];
    mark_nodes(s, ns, &mut nodes);
    held_marks::first_unmarked(&nodes, h, last)
}

// The same of a bucket.
pub fn free_bucket_of(s: State, ns: &[u32]) -> Option<u32>
    ensures { (bs : List ℕ) → link_of result ≡ bucket_to_take (machine_of s ns.now bs) }
{
    let b = s.buckets;
    let last = s.last_bucket;
    if pool::MOST_NODES <= s.head || pool::MOST_BUCKETS < b || b <= last {
        return None;
    }
    let mut nodes = [false; NODES];
    mark_nodes(s, ns, &mut nodes);
    let mut buckets = [false; BUCKETS];
    mark_placed(ns, nodes, &mut buckets);
    mark_own(s, &mut buckets);
    held_marks::first_unmarked(&buckets, b, last)
}
