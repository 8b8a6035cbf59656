// A line of Figure 2 ends its call: the answer, the task's own steps, how full its bucket is, and an idle record.
#![tactic(auto)]

ghost use Rattle.std.specs.Prelude.{◌≡◌, List, true, ℕ, ◌<◌};
ghost use Rattle.spec.specs.Machine.{machine_of};
ghost use Rattle.spec.specs.Words.{number, count, nothing};
ghost use Rattle.spec.specs.Lines.{answers, answers_of};
ghost use Rattle.spec.specs.Entries.{accept, occupancy};
ghost use Rattle.line_moves.specs.Moving.{changes, moved_reply};

use line_moves::{Moved, one_more_own_step};
use spec::{Answer, Progress, State, Task};

// What is left of a call that ends: its answer, own steps and how full its bucket is, and an idle record.
#[tactic(auto, using(crate::proofs::Ending::ends_so), unfolding(line_moves::specs::Moving::changes))]
fn ended(s: State, k: usize, c: Task, a: Answer, full: Option<u32>) -> Moved
    requires { k < 8 }
    ensures { ((ns bs : List ℕ) (l : ℕ) → full ≡ occupancy (machine_of s ns bs) l
        → moved_reply s k result ns bs ≡ accept (machine_of s ns bs) k c.own (answers_of l nothing a)) × (changes result.out k ≡ true) }
{
    let n = one_more_own_step(c.own);
    Moved {
        out: Ok(Progress::End(a, n, full)),
        head: s.head,
        last_node: s.last_node,
        last_bucket: s.last_bucket,
        task: state::idle(),
    }
}

// A contains or a resize ends.
#[tactic(auto, unfolding(spec::specs::Entries::occupancy))]
pub fn end(s: State, k: usize, c: Task, a: Answer) -> Moved
    requires { k < 8 }
    ensures { ((ns bs : List ℕ) → moved_reply s k result ns bs ≡ accept (machine_of s ns bs) k c.own (answers a)) × (changes result.out k ≡ true) }
{
    ended(s, k, c, a, None)
}

// An insert or a remove ends, with n tags in its bucket.
#[tactic(auto, unfolding(spec::specs::Entries::occupancy))]
pub fn end_counted(s: State, k: usize, c: Task, a: Answer, n: u32) -> Moved
    requires { (k < 8) × (0 < c.b) }
    ensures { ((ns bs : List ℕ) → n ≡ count bs (number c.b) → moved_reply s k result ns bs
        ≡ accept (machine_of s ns bs) k c.own (answers_of c.b nothing a)) × (changes result.out k ≡ true) }
{
    ended(s, k, c, a, Some(n))
}
