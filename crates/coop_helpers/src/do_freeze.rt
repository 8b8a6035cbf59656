// DOFREEZE, lines 120 to 127 of Figure 6.
ghost use Rattle.std.specs.Prelude.{◌≡◌, List, true, ℕ, ◌<◌};
ghost use Rattle.spec.specs.Lists.{member};
ghost use Rattle.coop_spec.specs.Machine.{machine_of};
ghost use Rattle.coop_spec.specs.Sound.{freeze_lines};
ghost use Rattle.coop_spec.specs.Entries.{step_running};
ghost use Rattle.coop_lines.specs.Reply.{reply_of, Ready};

use coop_lines::Stepped;
use coop_spec::{Answer, Refusal, State, Task};

// while b.node.op ≠ ⊥
fn line120(s: State, k: u32, c: Task, vs: &[u32]) -> Stepped
    requires { c.line ≡ 120 }
    ensures { reply_of result vs.now ≡ step_running (machine_of s vs.now) k c }
{
    coop_lines::choose(s, k, c, coop_lines::frozen(s, vs), 127, 121)
}

// o <- b.node
fn line121(s: State, k: u32, c: Task) -> Stepped
    requires { (c.line ≡ 121) × (s.node < s.versions) }
    ensures { (vs : List ℕ) → reply_of result vs ≡ step_running (machine_of s vs) k c }
{
    coop_lines::read_node(s, k, c, 122)
}

// if o.op = nil, else HELPFINISH(b) (line 126)
fn line122(s: State, k: u32, c: Task, vs: &[u32]) -> Stepped
    requires { c.line ≡ 122 }
    ensures { reply_of result vs.now ≡ step_running (machine_of s vs.now) k c }
{
    coop_lines::test_op(s, k, c, vs, 123, 126)
}

// if CAS(&o.op, nil, ⊥) then break (line 124), else round the loop
fn line123(s: State, k: u32, c: Task, vs: &mut [u32]) -> Stepped
    requires { c.line ≡ 123 }
    ensures { reply_of result vs.new ≡ step_running (machine_of s vs.old) k c }
{
    if c.o == 0 {
        return coop_lines::refused(s, Refusal::Spoilt);
    }
    if coop_lines::cas_op(c, vs, 1) {
        return coop_lines::go_line(s, k, c, 127);
    }
    coop_lines::go_line(s, k, c, 120)
}

// return b.node.set; an invoke came from line 97 and breaks to 107
fn line127(s: State, k: u32, c: Task) -> Stepped
    requires { c.line ≡ 127 }
    ensures { (vs : List ℕ) → reply_of result vs ≡ step_running (machine_of s vs) k c }
{
    if coop_state::is_invoke(c.call) {
        return coop_lines::go_line(s, k, c, 107);
    }
    coop_lines::end(s, k, c, Answer::Version(s.node))
}

// A step of a task that stands at one of these lines. (Compiled by itself: in its caller its state would lie on the stack beside that of every other line.)
#[inline(never)]
pub fn step(s: State, k: u32, c: Task, vs: &mut [u32]) -> Stepped
    requires { Ready s vs.old c × (member c.line freeze_lines ≡ true) }
    ensures { reply_of result vs.new ≡ step_running (machine_of s vs.old) k c }
{
    match c.line {
        120 => line120(s, k, c, vs),
        121 => line121(s, k, c),
        122 => line122(s, k, c, vs),
        123 => line123(s, k, c, vs),
        _ => line127(s, k, c),
    }
}
