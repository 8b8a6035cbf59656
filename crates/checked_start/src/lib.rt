// A start of memory that has been checked: what it refuses, and what it changes of the state.
#![tactic(auto)]

ghost use Rattle.std.specs.Prelude.{◌≡◌, List, ℕ};
ghost use Rattle.spec.specs.Entries.{withdrawn, start};
ghost use Rattle.spec.specs.Machine.{machine_of};
ghost use Rattle.soundness.specs.Told.{checked_of};
ghost use Rattle.lines.specs.Reply.{refusal, Gives};

use lines::Moved;
use spec::{Call, Config, Progress, Refusal, State, Task};

// Whether tag 0 is withdrawn and the call an insert of it.
fn withdrawn(g: Config, call: Call, tag: u32) -> bool
    ensures { result ≡ withdrawn g call tag }
{
    match call {
        Call::Insert => g.zero_withdrawn & (tag == 0),
        Call::Remove | Call::Contains | Call::Grow | Call::Shrink => false,
    }
}

// A refusal, beside the state's numbers.
pub fn refused(head: u32, node: u32, bucket: u32, why: Refusal) -> Moved
    ensures { (s : State) → s.head ≡ head → s.last_node ≡ node → s.last_bucket ≡ bucket → result ≡ refusal s why }
{
    Moved {
        out: Err(why),
        head,
        last_node: node,
        last_bucket: bucket,
        task: state::idle(),
    }
}

// What a start for task k changes of a state with this opening and these numbers, with what a check of it gave: no task's record is read but that one.
pub fn start_of(
    g: Config,
    head: u32,
    node: u32,
    bucket: u32,
    d: Option<Task>,
    k: u32,
    call: Call,
    tag: u32,
) -> Moved
    ensures { (s : State) (ns bs : List ℕ) → s.config ≡ g → s.head ≡ head → s.last_node ≡ node → s.last_bucket ≡ bucket
        → d ≡ checked_of (machine_of s ns bs) k → Gives s k result ns bs (start (machine_of s ns bs) k call tag) }
{
    let Some(c) = d else {
        return refused(head, node, bucket, Refusal::Spoilt);
    };
    if g.tasks <= k {
        return refused(head, node, bucket, Refusal::NoTask);
    }
    if c.running {
        return refused(head, node, bucket, Refusal::Running);
    }
    if withdrawn(g, call, tag) {
        return refused(head, node, bucket, Refusal::Withdrawn);
    }
    let x = started_task::begun(call, tag);
    Moved {
        out: Ok(Progress::At(x.line)),
        head,
        last_node: node,
        last_bucket: bucket,
        task: x,
    }
}

// The same for the state s.
pub fn start(s: State, d: Option<Task>, k: u32, call: Call, tag: u32) -> Moved
    ensures { (ns bs : List ℕ) → d ≡ checked_of (machine_of s ns bs) k → Gives s k result ns bs (start (machine_of s ns bs) k call tag) }
{
    start_of(
        s.config,
        s.head,
        s.last_node,
        s.last_bucket,
        d,
        k,
        call,
        tag,
    )
}
