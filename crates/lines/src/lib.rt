// What the lines of Figure 2 share. One step is one line: each crate `lines_..` has a function for each line of a procedure, in the figure's
// order, and one that goes by the task's line. A line takes the state by value, the task's number and record, and the words that it
// reads or writes. What it gives, stored in the state, is what `step_running` of the definitions gives for a task that stands there.
#![tactic(auto)]

ghost use Rattle.std.specs.Prelude.{◌≡◌, List, ℕ};
ghost use Rattle.lines.specs.Reply.{reply_of, changes, moved_reply};

use spec::{Output, State};

// What a line answers and may change of the state, and the three ways in which it ends.
pub use line_ends::{end, end_counted};
pub use line_moves::{Moved, go, refused};

// What an entry answers, and the state after it.
#[derive(Clone, Copy)]
pub struct Stepped {
    pub out: Output,
    pub state: State,
}

// ---- the state after a line

// The answer of task k changes the state: it is no refusal, and there is such a task.
#[tactic(auto, using(crate::proofs::Settling::changes_ok), unfolding(line_moves::specs::Moving::changes))]
pub fn changes(out: Output, k: u32) -> bool
    ensures { result ≡ changes out k }
{
    match out {
        Ok(_) => k < 8,
        Err(_) => false,
    }
}

// The state after task k has moved so. (Where a state is kept, in `schedule` and `dispatch_turns`, these words are stored in place: a state lent to a function
// that indexes its tasks is copied.)
pub fn settle(s: State, k: u32, m: Moved) -> Stepped
    ensures { (ns bs : List ℕ) → reply_of result ns bs ≡ moved_reply s k m ns bs }
{
    let out = m.out;
    if !changes(out, k) {
        return Stepped { out, state: s };
    }
    let mut t = s;
    t.head = m.head;
    t.last_node = m.last_node;
    t.last_bucket = m.last_bucket;
    t.task[k as usize] = m.task;
    Stepped { out, state: t }
}
