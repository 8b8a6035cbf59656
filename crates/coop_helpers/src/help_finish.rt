// HELPFINISH, lines 129 to 140 of Figure 6.
ghost use Rattle.std.specs.Prelude.{◌≡◌, List, true, ℕ, ◌<◌};
ghost use Rattle.spec.specs.Lists.{member};
ghost use Rattle.coop_spec.specs.Machine.{machine_of};
ghost use Rattle.coop_spec.specs.Sound.{help_lines};
ghost use Rattle.coop_spec.specs.Entries.{step_running};
ghost use Rattle.coop_lines.specs.Reply.{reply_of, Ready};

use coop_lines::Stepped;
use coop_spec::{Refusal, State, Task};

// o <- b.node
fn line129(s: State, k: u32, c: Task) -> Stepped
    requires { (c.line ≡ 129) × (s.node < s.versions) }
    ensures { (vs : List ℕ) → reply_of result vs ≡ step_running (machine_of s vs) k c }
{
    coop_lines::read_node(s, k, c, 130)
}

// op <- o.op; if there is one (line 131)
fn line130(s: State, k: u32, c: Task, vs: &[u32]) -> Stepped
    requires { c.line ≡ 130 }
    ensures { reply_of result vs.now ≡ step_running (machine_of s vs.now) k c }
{
    if c.o == 0 {
        return coop_lines::refused(s, Refusal::Spoilt);
    }
    let m = coop_pool::op_word(vs, c.o - 1);
    if 2 <= m {
        return coop_lines::go(
            s,
            k,
            Task {
                line: 138,
                helped: m - 1,
                ..c
            },
        );
    }
    coop_lines::return_to(s, k, c)
}

// op.resp <- what lines 132 to 137 find
fn line138(s: State, k: u32, c: Task, vs: &[u32]) -> Stepped
    requires { (c.line ≡ 138) × Ready s vs.now c }
    ensures { reply_of result vs.now ≡ step_running (machine_of s vs.now) k c }
{
    if !coop_lines::both_filled(c) {
        return coop_lines::refused(s, Refusal::Spoilt);
    }
    let j = pool::number_of(c.o);
    let n = pool::number_of(c.helped);
    let op = coop_state::operation(s, n);
    let t = coop_state::set_resp(s, n, coop_pool::responds(op, vs, j));
    coop_lines::go_with(t, k, c, 139, c.o)
}

// op.prio <- ∞
fn line139(s: State, k: u32, c: Task) -> Stepped
    requires { c.line ≡ 139 }
    ensures { (vs : List ℕ) → reply_of result vs ≡ step_running (machine_of s vs) k c }
{
    if c.helped == 0 {
        return coop_lines::refused(s, Refusal::Spoilt);
    }
    let n = pool::number_of(c.helped);
    let t = coop_state::set_done(s, n);
    coop_lines::go_with(t, k, c, 140, c.o)
}

// CAS(&b.node, o, a new version with the set of lines 132 to 137)
fn line140(s: State, k: u32, c: Task, vs: &mut [u32]) -> Stepped
    requires { (c.line ≡ 140) × Ready s vs.old c }
    ensures { reply_of result vs.new ≡ step_running (machine_of s vs.old) k c }
{
    if !coop_lines::both_filled(c) {
        return coop_lines::refused(s, Refusal::Spoilt);
    }
    let j = pool::number_of(c.o);
    if s.node != j {
        return coop_lines::return_to(s, k, c);
    }
    let n = pool::number_of(c.helped);
    let op = coop_state::operation(s, n);
    if !coop_pool::has_room(op, vs, j) {
        return coop_lines::refused(s, Refusal::Spoilt);
    }
    let Some(free) = coop_pool::taking::free_version(s) else {
        return coop_lines::refused(s, Refusal::NoVersion);
    };
    let version = coop_pool::made_of(op, vs, j);
    let t = coop_pool::install(s, vs, free, version);
    coop_lines::return_to(t, k, c)
}

// A step of a task that stands at one of these lines. (Compiled by itself: in its caller its state would lie on the stack beside that of every other line.)
#[inline(never)]
pub fn step(s: State, k: u32, c: Task, vs: &mut [u32]) -> Stepped
    requires { Ready s vs.old c × (member c.line help_lines ≡ true) }
    ensures { reply_of result vs.new ≡ step_running (machine_of s vs.old) k c }
{
    match c.line {
        129 => line129(s, k, c),
        130 => line130(s, k, c, vs),
        138 => line138(s, k, c, vs),
        139 => line139(s, k, c),
        _ => line140(s, k, c, vs),
    }
}
