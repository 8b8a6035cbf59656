// APPLY, lines 32 to 36 of Figure 2, for insert and remove. Line 35's call of INITBUCKET is lines 39 to 51.
#![tactic(auto)]

ghost use Rattle.std.specs.Prelude.{◌≡◌, List, true, ℕ, ◌≤◌, ◌<◌};
ghost use Rattle.spec.specs.Sound.{sound};
ghost use Rattle.spec.specs.Machine.{machine_of};
ghost use Rattle.spec.specs.Entries.{step_running};
ghost use Rattle.lines.specs.Reply.{Gives};
ghost use Rattle.lines.specs.Running.{Runs, apply_lines};
ghost use Rattle.lines_apply.specs.Invokes.{Invokes};

use bucket::Response;
use lines::Moved;
use spec::{Answer, Refusal, State, Task};

// b <- t.buckets[k mod t.size]; if b = nil (line 34) INITBUCKET
pub fn line33(s: State, k: usize, c: Task, ns: &[u32]) -> Moved
    requires { (k < 8) × (c.line ≡ 33) }
    ensures { (bs : List ℕ) → Gives s k result ns.now bs (step_running (machine_of s ns.now bs) k c) }
{
    let i = bucket::slot(s.config, c.tag, pool::size_of(ns, c.t));
    lines_contains::read_bucket(s, k, c, c.t, 36, i, 39, ns)
}

// INVOKE(b, op) of an insert, with b not frozen: the bucket is searched first, and the listed tags are counted for an absent tag alone.
// Each answer goes with how many tags b then holds. A bucket that has no room is refused before anything is stored.
fn insert36(s: State, k: usize, c: Task, ns: &[u32], bs: &mut [u32]) -> Moved
    requires { Invokes k c bs.old × (c.call ≡ 1) × (sound (machine_of s ns.now bs.old) ≡ true) }
    ensures { Gives s k result ns.now bs.new (step_running (machine_of s ns.now bs.old) k c) }
{
    let j = c.b as usize - 1;
    let n = pool::word(bs, pool::BUCKET_WORDS * j + 1);
    if pool::buckets::has_at(bs, j, c.tag) {
        return lines::end_counted(s, k, c, Answer::No, n);
    }
    let listed = listing::count(s, ns, bs);
    if 64 <= listed {
        return lines::end_counted(s, k, c, Answer::Full, n);
    }
    if 64 <= n {
        return lines::refused(s, Refusal::Spoilt);
    }
    let d = pool::buckets::add_at(bs, j, c.tag);
    lines::end_counted(s, k, c, Answer::Yes, d.count)
}

// INVOKE(b, op) of a remove, with b not frozen
fn remove36(s: State, k: usize, c: Task, bs: &mut [u32]) -> Moved
    requires { Invokes k c bs.old × (c.call ≡ 1 → ⊥) }
    ensures { (ns : List ℕ) → Gives s k result ns bs.new (step_running (machine_of s ns bs.old) k c) }
{
    let j = c.b as usize - 1;
    let d = pool::buckets::remove_at(bs, j, c.tag);
    let a = match d.response {
        Response::Yes => Answer::Yes,
        _ => Answer::No,
    };
    lines::end_counted(s, k, c, a, d.count)
}

// INVOKE(b, op): a frozen bucket sends the task back to line 32
pub fn line36(s: State, k: usize, c: Task, ns: &[u32], bs: &mut [u32]) -> Moved
    requires { (k < 8) × (c.line ≡ 36) × (sound (machine_of s ns.now bs.old) ≡ true) × (c.b ≤ s.buckets) }
    ensures { Gives s k result ns.now bs.new (step_running (machine_of s ns.now bs.old) k c) }
{
    let Some(j) = c.b.checked_sub(1) else {
        return lines::refused(s, Refusal::Spoilt);
    };
    if pool::word(bs, pool::BUCKET_WORDS * j as usize) == 0 {
        let x = Task {
            i: 0,
            t: 0,
            s: 0,
            b: 0,
            m: 0,
            n: 0,
            new_node: 0,
            new_bucket: 0,
            ..c
        };
        return lines::go(s, k, x, 32);
    }
    if c.call == 1 {
        return insert36(s, k, c, ns, bs);
    }
    remove36(s, k, c, bs)
}

// The line at which task k stands.
pub fn step(s: State, k: usize, c: Task, ns: &[u32], bs: &mut [u32]) -> Moved
    requires { Runs (machine_of s ns.now bs.old) k c apply_lines }
    ensures { Gives s k result ns.now bs.new (step_running (machine_of s ns.now bs.old) k c) }
{
    match c.line {
        // t <- head
        32 => lines_contains::read_head(s, k, c, 33),
        33 => line33(s, k, c, ns),
        _ => line36(s, k, c, ns, bs),
    }
}
