// HASMEMBER, lines 112 to 116 of Figure 6.
ghost use Rattle.std.specs.Prelude.{◌≡◌, List, true, ℕ, ◌-◌, ◌<◌};
ghost use Rattle.spec.specs.Lists.{member};
ghost use Rattle.coop_spec.specs.Machine.{machine_of};
ghost use Rattle.coop_spec.specs.Sound.{member_lines};
ghost use Rattle.coop_spec.specs.Entries.{step_running};
ghost use Rattle.coop_lines.specs.Reply.{reply_of, Ready};

use coop_lines::Stepped;
use coop_spec::{Refusal, State, Task};

// o <- b.node
fn line112(s: State, k: u32, c: Task) -> Stepped
    requires { (c.line ≡ 112) × (s.node < s.versions) }
    ensures { (vs : List ℕ) → reply_of result vs ≡ step_running (machine_of s vs) k c }
{
    coop_lines::read_node(s, k, c, 113)
}

// The operation's number of a version's first word, 0 where it has none.
fn op_number(m: u32) -> u32
    ensures { result ≡ m - 2 }
{
    m.saturating_sub(2)
}

// op <- o.op; by its type where its key is the tag (lines 114 and 115), else by o.set (line 116)
fn line113(s: State, k: u32, c: Task, vs: &[u32]) -> Stepped
    requires { (c.line ≡ 113) × Ready s vs.now c }
    ensures { reply_of result vs.now ≡ step_running (machine_of s vs.now) k c }
{
    if c.o == 0 {
        return coop_lines::refused(s, Refusal::Spoilt);
    }
    let j = c.o - 1;
    let m = coop_pool::op_word(vs, j);
    let op = coop_state::operation(s, op_number(m));
    if (2 <= m) & (op.tag == c.tag) {
        return coop_lines::end(
            s,
            k,
            c,
            coop_lines::yes_no(op.kind == coop_state::INVOKE_INSERT),
        );
    }
    coop_lines::end(s, k, c, coop_lines::yes_no(coop_pool::has(vs, j, c.tag)))
}

// A step of a task that stands at one of these lines. (Compiled by itself: in its caller its state would lie on the stack beside that of every other line.)
#[inline(never)]
pub fn step(s: State, k: u32, c: Task, vs: &[u32]) -> Stepped
    requires { Ready s vs.now c × (member c.line member_lines ≡ true) }
    ensures { reply_of result vs.now ≡ step_running (machine_of s vs.now) k c }
{
    if c.line == 112 {
        line112(s, k, c)
    } else {
        line113(s, k, c, vs)
    }
}
