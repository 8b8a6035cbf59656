// A step of memory that has been checked: what it refuses, and the procedure that the task's line belongs to.
#![tactic(auto)]

ghost use Rattle.std.specs.Prelude.{◌≡◌};
ghost use Rattle.spec.specs.Entries.{step};
ghost use Rattle.spec.specs.Machine.{machine_of};
ghost use Rattle.soundness.specs.Told.{checked_of};
ghost use Rattle.lines.specs.Reply.{Gives};

use lines::Moved;
use spec::{Refusal, State, Task};

// What a step of task k by one line changes of the state, with what a check of it gave. The state is indexed in the check alone, and
// two functions call this one: so it stays a function of its own, and neither of them copies the state. In sound memory a record that
// runs is that of a task: so a step that goes on asks for no more than that.
pub fn step(s: State, d: Option<Task>, k: u32, ns: &mut [u32], bs: &mut [u32]) -> Moved
    requires { d ≡ checked_of (machine_of s ns.old bs.old) k }
    ensures { Gives s k result ns.new bs.new (step (machine_of s ns.old bs.old) k) }
{
    let Some(c) = d else {
        return lines::refused(s, Refusal::Spoilt);
    };
    if !c.running {
        if s.config.tasks <= k {
            return lines::refused(s, Refusal::NoTask);
        }
        return lines::refused(s, Refusal::Idle);
    }
    let j = k as usize;
    match c.line {
        0..=19 => lines_contains::step(s, j, c, ns, bs),
        20..=31 => lines_resize::step(s, j, c, ns),
        32..=38 => lines_apply::step(s, j, c, ns, bs),
        _ => lines_init_bucket::step(s, j, c, ns, bs),
    }
}
