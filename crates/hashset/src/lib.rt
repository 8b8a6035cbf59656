// The entries that move the yard set: start and step.
#![tactic(auto)]

ghost use Rattle.std.specs.Prelude.{◌≡◌};
ghost use Rattle.spec.specs.Entries.{start, step};
ghost use Rattle.spec.specs.Machine.{machine_of};
ghost use Rattle.lines.specs.Reply.{reply_of, Gives};

use lines::{Moved, Stepped};
use spec::{Call, State};

// What a start for task k changes of the state.
pub fn moved_by_start(s: State, k: u32, call: Call, tag: u32, ns: &[u32], bs: &[u32]) -> Moved
    ensures { Gives s k result ns.now bs.now (start (machine_of s ns.now bs.now) k call tag) }
{
    let d = soundness::check(s, k, ns, bs);
    checked_start::start(s, d, k, call, tag)
}

// Starts a call for a task.
pub fn start(s: State, k: u32, call: Call, tag: u32, ns: &[u32], bs: &[u32]) -> Stepped
    ensures { reply_of result ns.now bs.now ≡ start (machine_of s ns.now bs.now) k call tag }
{
    let m = moved_by_start(s, k, call, tag, ns, bs);
    lines::settle(s, k, m)
}

// What a step of task k by one line changes of the state.
pub fn moved_by_step(s: State, k: u32, ns: &mut [u32], bs: &mut [u32]) -> Moved
    ensures { Gives s k result ns.new bs.new (step (machine_of s ns.old bs.old) k) }
{
    let d = soundness::check(s, k, ns, bs);
    checked_step::step(s, d, k, ns, bs)
}

// Steps a task by one line.
pub fn step(s: State, k: u32, ns: &mut [u32], bs: &mut [u32]) -> Stepped
    ensures { reply_of result ns.new bs.new ≡ step (machine_of s ns.old bs.old) k }
{
    let d = soundness::check(s, k, ns, bs);
    let m = checked_step::step(s, d, k, ns, bs);
    lines::settle(s, k, m)
}
