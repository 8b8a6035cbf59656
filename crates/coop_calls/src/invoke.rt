// INVOKE, lines 95 to 107 of Figure 6.
ghost use Rattle.std.specs.Prelude.{◌≡◌, List, true, ℕ, ◌<◌};
ghost use Rattle.spec.specs.Lists.{member};
ghost use Rattle.coop_spec.specs.Machine.{machine_of};
ghost use Rattle.coop_spec.specs.Sound.{invoke_lines};
ghost use Rattle.coop_spec.specs.Entries.{step_running};
ghost use Rattle.coop_lines.specs.Reply.{reply_of, Ready};

use coop_lines::Stepped;
use coop_spec::{Answer, Refusal, State, Task};

// while b.node.op ≠ ⊥ and op.prio ≠ ∞
fn line95(s: State, k: u32, c: Task, vs: &[u32]) -> Stepped
    requires { c.line ≡ 95 }
    ensures { reply_of result vs.now ≡ step_running (machine_of s vs.now) k c }
{
    let goes_on = !coop_lines::frozen(s, vs) & !coop_lines::own_done(s, c);
    coop_lines::choose(s, k, c, goes_on, 96, 107)
}

// if b.flag then DOFREEZE(b) (line 97)
fn line96(s: State, k: u32, c: Task) -> Stepped
    requires { c.line ≡ 96 }
    ensures { (vs : List ℕ) → reply_of result vs ≡ step_running (machine_of s vs) k c }
{
    coop_lines::choose(s, k, c, s.flag, 120, 99)
}

// o <- b.node
fn line99(s: State, k: u32, c: Task) -> Stepped
    requires { (c.line ≡ 99) × (s.node < s.versions) }
    ensures { (vs : List ℕ) → reply_of result vs ≡ step_running (machine_of s vs) k c }
{
    coop_lines::read_node(s, k, c, 100)
}

// if o.op = nil, else HELPFINISH(b) (line 106)
fn line100(s: State, k: u32, c: Task, vs: &[u32]) -> Stepped
    requires { c.line ≡ 100 }
    ensures { reply_of result vs.now ≡ step_running (machine_of s vs.now) k c }
{
    coop_lines::test_op(s, k, c, vs, 101, 106)
}

// if op.prio ≠ ∞, else round the loop
fn line101(s: State, k: u32, c: Task) -> Stepped
    requires { c.line ≡ 101 }
    ensures { (vs : List ℕ) → reply_of result vs ≡ step_running (machine_of s vs) k c }
{
    if coop_lines::own_done(s, c) {
        return coop_lines::go_line(s, k, c, 95);
    }
    coop_lines::go_with(s, k, c, 102, c.o)
}

// if CAS(&o.op, nil, op) then HELPFINISH(b) (line 103), else round the loop
fn line102(s: State, k: u32, c: Task, vs: &mut [u32]) -> Stepped
    requires { (c.line ≡ 102) × (c.op < 64) }
    ensures { reply_of result vs.new ≡ step_running (machine_of s vs.old) k c }
{
    if c.o == 0 {
        return coop_lines::refused(s, Refusal::Spoilt);
    }
    if coop_lines::cas_op(c, vs, c.op + 2) {
        return coop_lines::go_help(s, k, c, 103);
    }
    coop_lines::go_line(s, k, c, 95)
}

// return op.prio = ∞
fn line107(s: State, k: u32, c: Task) -> Stepped
    requires { c.line ≡ 107 }
    ensures { (vs : List ℕ) → reply_of result vs ≡ step_running (machine_of s vs) k c }
{
    if coop_lines::own_done(s, c) {
        return coop_lines::end_true(s, k, c);
    }
    coop_lines::end(s, k, c, Answer::No)
}

// A step of a task that stands at one of these lines. (Compiled by itself: in its caller its state would lie on the stack beside that of every other line.)
#[inline(never)]
pub fn step(s: State, k: u32, c: Task, vs: &mut [u32]) -> Stepped
    requires { Ready s vs.old c × (member c.line invoke_lines ≡ true) }
    ensures { reply_of result vs.new ≡ step_running (machine_of s vs.old) k c }
{
    match c.line {
        95 => line95(s, k, c, vs),
        96 => line96(s, k, c),
        99 => line99(s, k, c),
        100 => line100(s, k, c, vs),
        101 => line101(s, k, c),
        102 => line102(s, k, c, vs),
        _ => line107(s, k, c),
    }
}
