// Which versions are held, as marks, and which one is taken next.
ghost use Rattle.std.specs.Prelude.{◌≡◌, List, ℕ, ◌≤◌, ◌<◌, ◌-◌, SomeIff};
ghost use Rattle.spec.specs.Lists.{concat_map};
ghost use Rattle.held_marks.specs.Marks.{Marks};
ghost use Rattle.coop_spec.specs.Held.{task_versions, free_version};
ghost use Rattle.coop_spec.specs.Machine.{machine_of};

use coop_spec::{State, Task};

#[tactic(auto, using(held_marks::proofs::Laws::same), unfolding(coop_spec::specs::Held::task_versions))]
fn mark_task(m: &mut [bool], c: Task)
    ensures { Marks m.old m.new (task_versions c) }
{
    if c.running {
        held_marks::mark(m, c.o);
    }
}

fn mark_tasks(s: State, m: &mut [bool])
    ensures { Marks m.old m.new (concat_map task_versions s.task) }
{
    for c in s.task {
        mark_task(m, c);
    }
}

// The number of the version to be taken, None if all are held. (Compiled by itself: in its caller the eight tasks, looked at one by one, would have the
// whole state copied in pieces, and `coop_c` would be larger than a Cortex-M3 may have it.)
#[inline(never)]
pub fn free_version(s: State) -> Option<u32>
    requires { (s.versions ≤ 1024) × (s.node < s.versions) × (s.last < s.versions) }
    ensures { (vs : List ℕ) → SomeIff result (1 ≤ free_version (machine_of s vs)) (free_version (machine_of s vs) - 1) }
{
    let mut m = [false; crate::MOST_VERSIONS];
    held_marks::mark(&mut m, s.node + 1);
    mark_tasks(s, &mut m);
    held_marks::first_unmarked(&m, s.versions, s.last)
}
