// Refusal 8, as far as it does not depend on the entry called, of a state that a caller outside Rattle lends as words: tested on the words, with no
// state made. And the state of such words once they are known to be sound.
#![tactic(auto)]

ghost use Rattle.std.specs.Prelude.{◌≡◌, List, true, ℕ, ◌+◌, ◌*◌, ◌≤◌, ◌<◌, eqb, length, if◌then◌else◌};
ghost use Rattle.spec.specs.Machine.{Machine, machine_of, idle};
ghost use Rattle.spec.specs.Sound.{sound_numbers, sound_task, sound_tasks, sound};
ghost use Rattle.soundness.specs.Told.{checked_of};
ghost use Rattle.state_words.specs.StateWords.{task_at, tasks_of_words, state_of_words, task_fits, state_fits};

use spec::{State, Task};

// So many words are those of h nodes.
fn nodes_fit(words: usize, h: u32) -> bool
    ensures { result ≡ eqb words (34 * h) }
{
    words == pool::NODE_WORDS * (h as usize)
}

// So many words are those of b buckets.
fn buckets_fit(words: usize, b: u32) -> bool
    ensures { result ≡ eqb words (66 * b) }
{
    words == pool::BUCKET_WORDS * (b as usize)
}

// The words before the tasks and the slices' lengths: a line for each condition of `sound_numbers`.
#[tactic(auto, unfolding(spec::specs::Sound::sound_numbers, state_words::specs::StateWords::state_of_words))]
fn numbers_ok(w: &[u32], ns: &[u32], bs: &[u32]) -> bool
    requires { length w.now ≡ 113 }
    ensures { result ≡ sound_numbers (machine_of (state_of_words w.now) ns.now bs.now) }
{
    let g = yard_words::config_of(w);
    let h = w[3];
    let b = w[4];
    let head = w[5];
    let v: [bool; 10] = [
        sound_numbers::config_ok(g),
        sound_records::within(1, pool::MOST_NODES, h),
        sound_records::within(1, pool::MOST_BUCKETS, b),
        nodes_fit(ns.len(), h),
        buckets_fit(bs.len(), b),
        head < h,
        w[6] < h,
        w[7] < b,
        pool::size_at(ns, head) != 0,
        w[8] < g.tasks,
    ];
    sound_records::all_true(&v)
}

// The words of a task from T on: all are 0.
#[tactic(auto, using(crate::proofs::Laws::unused_zeros))]
fn unused_ok(w: &[u32], at: usize) -> bool
    requires { (at + 13 ≤ length w.now) × (task_fits w.now at ≡ true) }
    ensures { (y : Machine) (k : ℕ) → y.state.config.tasks ≤ k → result ≡ sound_task y k (task_at w.now at) }
{
    sound_records::zero_words(w, at, 13)
}

// The words of the tasks below T one by one, then of those from T on, with no exit on the way.
fn tasks_ok(w: &[u32], t: u32, h: u32, b: u32, ns: &[u32]) -> bool
    requires { (state_fits w.now ≡ true) × (t ≤ 8) }
    ensures { (y : Machine) → y.nodes ≡ ns.now → y.state.config.tasks ≡ t → y.state.nodes ≡ h → y.state.buckets ≡ b
        → result ≡ sound_tasks y 0 (tasks_of_words w.now) }
{
    let n = t as usize;
    for k in 0..n {
        let c = yard_words::task_at(w, 9 + 13 * k);
        if !soundness::task_ok(c, k as u32, t, ns, h, b) {
            return false;
        }
    }
    let mut all = true;
    for k in n..8 {
        all &= unused_ok(w, 9 + 13 * k);
    }
    all
}

// The state that the words are, and both pools, are sound.
#[tactic(auto, using(state_words::specs::RoundTrip::fits_long))]
fn sound(w: &[u32], ns: &[u32], bs: &[u32]) -> bool
    requires { state_fits w.now ≡ true }
    ensures { result ≡ sound (machine_of (state_of_words w.now) ns.now bs.now) }
{
    if numbers_ok(w, ns, bs)
        && sound_records::nodes_ok(ns, w[3], w[4])
        && sound_records::buckets_ok(bs, w[4] as usize)
    {
        tasks_ok(w, w[0], w[3], w[4], ns)
    } else {
        false
    }
}

// What a check gives of words that are known to be sound: the record of task j.
pub fn known(w: &[u32], j: u32) -> Option<Task>
    requires { length w.now ≡ 113 }
    ensures { (ns bs : List ℕ) → sound (machine_of (state_of_words w.now) ns bs) ≡ true
        → result ≡ checked_of (machine_of (state_of_words w.now) ns bs) j }
{
    let task = if j < 8 {
        yard_words::task_at(w, 9 + 13 * (j as usize))
    } else {
        state::idle()
    };
    Some(task)
}

// Refusal 8 of the state that the words are, and the record of task j. The only function that calls `sound`, which is so compiled into it.
pub fn check(w: &[u32], j: u32, ns: &[u32], bs: &[u32]) -> Option<Task>
    requires { state_fits w.now ≡ true }
    ensures { result ≡ checked_of (machine_of (state_of_words w.now) ns.now bs.now) j }
{
    if sound(w, ns, bs) { known(w, j) } else { None }
}

// ---- the state of sound words

// The task whose words begin there if it is one below T, else an idle one.
fn used_task(w: &[u32], at: usize, used: bool) -> Task
    requires { at + 13 ≤ length w.now }
    ensures { result ≡ (if used then task_at w.now at else idle) }
{
    if used {
        yard_words::task_at(w, at)
    } else {
        state::idle()
    }
}

// The tasks: of those from T on no word is read.
fn used_tasks(w: &[u32], n: u32) -> [Task; 8]
    requires { (length w.now ≡ 113) × (0 < n) × ((k : ℕ) → n ≤ k → k < 8 → task_at w.now (9 + 13 * k) ≡ idle) }
    ensures { result ≡ tasks_of_words w.now }
{
    [
        yard_words::task_at(w, 9),
        used_task(w, 22, 1 < n),
        used_task(w, 35, 2 < n),
        used_task(w, 48, 3 < n),
        used_task(w, 61, 4 < n),
        used_task(w, 74, 5 < n),
        used_task(w, 87, 6 < n),
        used_task(w, 100, 7 < n),
    ]
}

// The state that these words are, which with some pools is sound.
#[tactic(auto, unfolding(state_words::specs::StateWords::state_of_words))]
pub fn state_of_words(w: &[u32]) -> State
    requires { (length w.now ≡ 113) × ((ns : List ℕ) × (bs : List ℕ) × (sound (machine_of (state_of_words w.now) ns bs) ≡ true)) }
    ensures { result ≡ state_of_words w.now }
{
    State {
        config: yard_words::config_of(w),
        nodes: w[3],
        buckets: w[4],
        head: w[5],
        last_node: w[6],
        last_bucket: w[7],
        chosen: w[8],
        task: used_tasks(w, w[0]),
    }
}
