// The state lent by `&mut`, above the core that passes it by value: a start or a step moves the lent state on. `step_local` and
// `start_local` lend a local state, so that a caller has the same with the state by value.
#![tactic(auto)]

ghost use Rattle.std.specs.Prelude.{◌≡◌};
ghost use Rattle.spec.specs.Entries.{start, step};
ghost use Rattle.spec.specs.Machine.{machine_of};
ghost use Rattle.lines.specs.Reply.{reply_of};
ghost use Rattle.lent.specs.Answered.{answered};

use lines::Stepped;
use spec::{Call, Output, State};

// Steps task k by one line, on the lent state and the lent pools.
pub fn step(s: &mut State, k: u32, ns: &mut [u32], bs: &mut [u32]) -> Output
    ensures { answered result s.new ns.new bs.new ≡ step (machine_of s.old ns.old bs.old) k }
{
    let old = *s;
    let d = hashset::step(old, k, ns, bs);
    let new = lent_parts::state_of(d);
    *s = new;
    lent_parts::out_of(d)
}

// The main loop lends its state to a step, and has it back.
pub fn step_local(s: State, k: u32, ns: &mut [u32], bs: &mut [u32]) -> Stepped
    ensures { reply_of result ns.new bs.new ≡ step (machine_of s ns.old bs.old) k }
{
    let mut t = s;
    let p = step(&mut t, k, ns, bs);
    let new = t;
    lent_parts::stepped(p, new)
}

// Starts a call for task k, on the lent state.
pub fn start(s: &mut State, k: u32, call: Call, tag: u32, ns: &[u32], bs: &[u32]) -> Output
    ensures { answered result s.new ns.now bs.now ≡ start
        (machine_of s.old ns.now bs.now) k call tag }
{
    let before = *s;
    let d = hashset::start(before, k, call, tag, ns, bs);
    let after = lent_parts::state_of(d);
    *s = after;
    lent_parts::out_of(d)
}

// The main loop lends its state to a start, and has it back.
pub fn start_local(s: State, k: u32, call: Call, tag: u32, ns: &[u32], bs: &[u32]) -> Stepped
    ensures { reply_of result ns.now bs.now ≡ start (machine_of s ns.now bs.now) k call tag }
{
    let mut t = s;
    let p = start(&mut t, k, call, tag, ns, bs);
    let after = t;
    lent_parts::stepped(p, after)
}
