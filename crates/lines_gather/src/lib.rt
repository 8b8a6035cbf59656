// INITBUCKET, lines 43 to 49 of Figure 2: the predecessor's bucket or buckets, frozen, and a new one with their tags. Line 52 is the
// second freeze of line 48.
#![tactic(auto)]

ghost use Rattle.std.specs.Prelude.{◌≡◌, List, [], ◌∷◌, true, ℕ, ◌-◌, ◌*◌, ◌≤◌, ◌<◌, length, drop};
ghost use Rattle.spec.specs.Sound.{sound_bucket, sound};
ghost use Rattle.spec.specs.Machine.{machine_of, with_line};
ghost use Rattle.spec.specs.Words.{number, freeze};
ghost use Rattle.spec.specs.Lines.{writes, gathered};
ghost use Rattle.laws.specs.StepAt.{through, tested};
ghost use Rattle.spec.specs.Entries.{step_running};
ghost use Rattle.lines.specs.Reply.{Gives};
ghost use Rattle.lines.specs.Running.{Runs, gather_lines};
ghost use Rattle.spec.specs.declared.State.{State};
ghost use Rattle.lines_gather.specs.Made.{Makes};
ghost use Rattle.lines_gather.specs.Places.{with_field, place_tests, reads_place};

use bucket::Bucket;
use lines::Moved;
use spec::{Config, Refusal, State, Task};

// ---- lines of one shape: a place read into a field of the record, a bucket frozen

// The field of a task's record that a line reads a place into.
#[derive(Clone, Copy)]
pub enum Field {
    B,
    M,
    N,
}

#[tactic(auto, unfolding(crate::specs::Places::with_field, spec::specs::Machine::with_b, spec::specs::Machine::with_m, spec::specs::Machine::with_n))]
fn stored(c: Task, f: Field, v: u32) -> Task
    ensures { result ≡ with_field f v c }
{
    match f {
        Field::B => Task { b: v, ..c },
        Field::M => Task { m: v, ..c },
        Field::N => Task { n: v, ..c },
    }
}

// f <- node.buckets[i], and on to line l
pub fn read_place(
    s: State,
    k: usize,
    c: Task,
    f: Field,
    node: u32,
    i: usize,
    l: u32,
    ns: &[u32],
) -> Moved
    requires { k < 8 }
    ensures { (bs : List ℕ) → Gives s k result ns.now bs (tested (place_tests (machine_of s ns.now bs) node i)
        (machine_of s ns.now bs) k c (reads_place (machine_of s ns.now bs) c f node i l)) }
{
    if node == 0 || pool::size_of(ns, node) as usize <= i {
        return lines::refused(s, Refusal::Spoilt);
    }
    let v = pool::place_of(ns, node, i as u32);
    lines::go(s, k, stored(c, f, v), l)
}

// FREEZE(b), and on to line l
fn freeze(s: State, k: usize, c: Task, b: u32, l: u32, bs: &mut [u32]) -> Moved
    requires { (k < 8) × (b ≤ 1024) × (66 * b ≤ length bs.old) }
    ensures { (ns : List ℕ) → Gives s k result ns bs.new (tested (through b ∷ []) (machine_of s ns bs.old) k c
        (writes (freeze (number b)) (with_line l c))) }
{
    let Some(j) = b.checked_sub(1) else {
        return lines::refused(s, Refusal::Spoilt);
    };
    pool::buckets::freeze_at(bs, j as usize);
    lines::go(s, k, c, l)
}

// ---- the lines

// m <- s.buckets[i mod s.size]
pub fn line43(s: State, k: usize, c: Task, ns: &[u32]) -> Moved
    requires { (k < 8) × (c.line ≡ 43) }
    ensures { (bs : List ℕ) → Gives s k result ns.now bs (step_running (machine_of s ns.now bs) k c) }
{
    if c.s == 0 {
        return lines::refused(s, Refusal::Spoilt);
    }
    let i = bucket::remainder(c.i, pool::size_of(ns, c.s));
    let m = pool::place_of(ns, c.s, i);
    lines::go(s, k, Task { m, ..c }, 44)
}

// n <- s.buckets[i + t.size]
pub fn line47(s: State, k: usize, c: Task, ns: &[u32]) -> Moved
    requires { (k < 8) × (c.line ≡ 47) }
    ensures { (bs : List ℕ) → Gives s k result ns.now bs (step_running (machine_of s ns.now bs) k c) }
{
    if c.t == 0 {
        return lines::refused(s, Refusal::Spoilt);
    }
    let i = c.i as usize + pool::size_of(ns, c.t) as usize;
    read_place(s, k, c, Field::N, c.s, i, 48, ns)
}

// The bucket that line 49 makes; None where the tags are too many for one.
fn new_bucket_of(g: Config, c: Task, ns: &[u32], bs: &[u32]) -> Option<Bucket>
    requires { (0 < c.m) × (c.m ≤ 1024) × (c.n ≤ 1024) × (66 * c.m ≤ length bs.now) × (66 * c.n ≤ length bs.now)
        × (sound_bucket (drop (66 * (c.m - 1)) bs.now) ≡ true) × ((0 < c.n) → sound_bucket (drop (66 * (c.n - 1)) bs.now) ≡ true) }
    ensures { (s : State) → s.config ≡ g → Makes result (gathered (machine_of s ns.now bs.now) c) }
{
    let a = pool::buckets::load(bs, c.m as usize - 1);
    if c.n == 0 {
        let split = bucket_copies::split(a, g, pool::size_of(ns, c.t), c.i);
        return Some(split);
    }
    let b = pool::buckets::load(bs, c.n as usize - 1);
    bucket_copies::union(a, b)
}

// b' <- a new bucket with the tags copied from m, or from m and n
pub fn line49(s: State, k: usize, c: Task, ns: &[u32], bs: &mut [u32]) -> Moved
    requires { (k < 8) × (c.line ≡ 49) × (sound (machine_of s ns.now bs.old) ≡ true) × (c.m ≤ s.buckets) × (c.n ≤ s.buckets) }
    ensures { Gives s k result ns.now bs.new (step_running (machine_of s ns.now bs.old) k c) }
{
    if c.t == 0 || c.m == 0 {
        return lines::refused(s, Refusal::Spoilt);
    }
    let Some(made) = new_bucket_of(s.config, c, ns, bs) else {
        return lines::refused(s, Refusal::Spoilt);
    };
    let Some(f) = held::free_bucket_of(s, ns) else {
        return lines::refused(s, Refusal::NoRecord);
    };
    pool::buckets::store_at(bs, f as usize, made);
    let mut u = s;
    u.last_bucket = f;
    let new_bucket = f + 1;
    lines::go(u, k, Task { new_bucket, ..c }, 50)
}

// The line at which task k stands.
pub fn step(s: State, k: usize, c: Task, ns: &[u32], bs: &mut [u32]) -> Moved
    requires { Runs (machine_of s ns.now bs.old) k c gather_lines }
    ensures { Gives s k result ns.now bs.new (step_running (machine_of s ns.now bs.old) k c) }
{
    match c.line {
        43 => line43(s, k, c, ns),
        // FREEZE(m)
        44 => freeze(s, k, c, c.m, 49, bs),
        // m <- s.buckets[i]
        46 => read_place(s, k, c, Field::M, c.s, c.i as usize, 47, ns),
        47 => line47(s, k, c, ns),
        // FREEZE(m), the first half of line 48
        48 => freeze(s, k, c, c.m, 52, bs),
        49 => line49(s, k, c, ns, bs),
        // 52: FREEZE(n), the second half of line 48
        _ => freeze(s, k, c, c.n, 49, bs),
    }
}
