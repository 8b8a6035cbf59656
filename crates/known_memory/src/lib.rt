// A start and a step where it is known whether memory is sound, so that it is not scanned: an accepted opening leaves it sound, and no event
// changes whether it is (`event_sound`).
#![tactic(auto)]

ghost use Rattle.std.specs.Prelude.{◌≡◌, List, ℕ, ◌%◌, length};
ghost use Rattle.spec.specs.Machine.{Machine, machine_of, task_of};
ghost use Rattle.spec.specs.Sound.{sound};
ghost use Rattle.spec.specs.Entries.{start, step};
ghost use Rattle.soundness.specs.Told.{checked_of};
ghost use Rattle.lines.specs.Reply.{reply_of};

use lines::Stepped;
use spec::{Call, State, Task};

// What a check of memory would give for task k; c is record k mod 8.
pub fn checked(ok: bool, c: Task, k: u32) -> Option<Task>
    ensures { (y : Machine) → length y.state.task ≡ 8 → c ≡ task_of y (k % 8) → ok ≡ sound y → result ≡ checked_of y k }
{
    if !ok {
        None
    } else if k < 8 {
        Some(c)
    } else {
        Some(state::idle())
    }
}

// Starts a call for task k. No word of a pool is read.
pub fn start(ok: bool, s: State, k: u32, call: Call, tag: u32) -> Stepped
    ensures { (ns bs : List ℕ) → ok ≡ sound (machine_of s ns bs) → reply_of result ns bs ≡ start (machine_of s ns bs) k call tag }
{
    let c = s.task[(k % 8) as usize];
    let d = checked(ok, c, k);
    let m = checked_start::start(s, d, k, call, tag);
    lines::settle(s, k, m)
}

// Steps task k by one line.
pub fn step(ok: bool, s: State, k: u32, ns: &mut [u32], bs: &mut [u32]) -> Stepped
    requires { ok ≡ sound (machine_of s ns.old bs.old) }
    ensures { reply_of result ns.new bs.new ≡ step (machine_of s ns.old bs.old) k }
{
    let c = s.task[(k % 8) as usize];
    let d = checked(ok, c, k);
    let m = checked_step::step(s, d, k, ns, bs);
    lines::settle(s, k, m)
}
