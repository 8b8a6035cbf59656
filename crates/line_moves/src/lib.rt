// What a line of Figure 2 gives: it is refused, or its task goes on. How a call ends stands in `line_ends`. What a line gives, stored in
// the state, is what `step_running` of the definitions gives for a task that stands there. Every line takes the state, the task's number and its record one
// by one: the state goes by value, and a record of the three would be made once and taken apart at each line, with the state in it copied.
#![tactic(auto)]

ghost use Rattle.std.specs.Prelude.{◌≡◌, List, true, ℕ, ◌+◌, ◌<◌, min};
ghost use Rattle.spec.specs.Machine.{with_line, machine_of};
ghost use Rattle.spec.specs.Lines.{moves};
ghost use Rattle.spec.specs.Entries.{accept};
ghost use Rattle.line_moves.specs.Moving.{changes, moved_reply, refusal};

use spec::{Output, Progress, Refusal, State, Task};

// What a line answers, and what it may change of the state: the head, the node and the bucket last taken, and the record of the task
// that moves. A refusal changes nothing: the numbers of the state and an idle record stand beside it. A caller that keeps the state
// stores these few words in it, and no copy of the state is made.
#[derive(Clone, Copy)]
pub struct Moved {
    pub out: Output,
    pub head: u32,
    pub last_node: u32,
    pub last_bucket: u32,
    pub task: Task,
}

// One own step more, staying at 65535.
pub fn one_more_own_step(n: u16) -> u16
    ensures { result ≡ min (n + 1) 65535 }
{
    n.saturating_add(1)
}

// A line that is refused ends by a `return` of this. A `?` would be no plainer: a refusal is a Moved too, whose numbers are those of the state, so that each
// line would give a Result and its caller would make the Moved again; and a task's links are words of the lent memory, 0 for none, and so no Options.
#[tactic(auto, unfolding(crate::specs::Moving::refusal))]
pub fn refused(s: State, why: Refusal) -> Moved
    ensures { result ≡ refusal s why }
{
    Moved {
        out: Err(why),
        head: s.head,
        last_node: s.last_node,
        last_bucket: s.last_bucket,
        task: state::idle(),
    }
}

// The task goes on with the record c, at line l.
#[tactic(auto, using(crate::proofs::Going::goes_on), unfolding(spec::specs::Machine::with_line, spec::specs::Machine::with_own, crate::specs::Moving::changes))]
pub fn go(s: State, k: usize, c: Task, l: u32) -> Moved
    requires { k < 8 }
    ensures { ((ns bs : List ℕ) → moved_reply s k result ns bs ≡ accept (machine_of s ns bs) k c.own (moves (with_line l c)))
        × (changes result.out k ≡ true) }
{
    Moved {
        out: Ok(Progress::At(l)),
        head: s.head,
        last_node: s.last_node,
        last_bucket: s.last_bucket,
        task: Task {
            own: one_more_own_step(c.own),
            line: l,
            ..c
        },
    }
}
