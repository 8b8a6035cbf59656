// Refusal 8 of the state's own numbers (what it keeps of its opening, its counts and what stands below them), and of a task that does
// not run.
#![tactic(auto)]

ghost use Rattle.std.specs.Prelude.{◌≡◌, ℕ, ◌≤◌};
ghost use Rattle.spec.specs.Machine.{Machine, machine_of};
ghost use Rattle.spec.specs.Sound.{config_sound, sound_numbers, zero_task, sound_task};

use spec::{Config, State, Task};

// What the state keeps of its opening: a line for each condition of `config_sound`.
#[tactic(auto, unfolding(spec::specs::Sound::config_sound))]
pub fn config_ok(g: Config) -> bool
    ensures { result ≡ config_sound g }
{
    let w: [bool; 2] = [
        sound_records::within(1, 8, g.tasks),
        sound_records::within(1, 2, g.version),
    ];
    sound_records::all_true(&w)
}

// The state's numbers and the slices' lengths: a line for each condition of `sound_numbers`.
#[tactic(auto, unfolding(spec::specs::Sound::sound_numbers))]
pub fn numbers_ok(s: State, ns: &[u32], bs: &[u32]) -> bool
    ensures { result ≡ sound_numbers (machine_of s ns.now bs.now) }
{
    let g = s.config;
    let h = s.nodes;
    let b = s.buckets;
    let node_words = pool::NODE_WORDS * (h as usize);
    let bucket_words = pool::BUCKET_WORDS * (b as usize);
    let w: [bool; 10] = [
        config_ok(g),
        sound_records::within(1, pool::MOST_NODES, h),
        sound_records::within(1, pool::MOST_BUCKETS, b),
        ns.len() == node_words,
        bs.len() == bucket_words,
        s.head < h,
        s.last_node < h,
        s.last_bucket < b,
        pool::size_at(ns, s.head) != 0,
        s.chosen < g.tasks,
    ];
    sound_records::all_true(&w)
}

// The record of a task that does not run is zeros. (Its words are joined by one `or`, and not compared with an idle record by `==`, which would go on or
// stop at each: the scan has no exit within a record, docs/SPEED.md.)
#[tactic(auto, unfolding(spec::specs::Sound::zeros, spec::specs::Sound::zero_task, spec::specs::Lists::every))]
pub fn idle_ok(c: Task) -> bool
    ensures { result ≡ zero_task c }
{
    let o = c.own as u32;
    let w: [u32; 12] = [
        c.call,
        c.tag,
        c.line,
        c.i,
        o,
        c.t,
        c.s,
        c.b,
        c.m,
        c.n,
        c.new_node,
        c.new_bucket,
    ];
    sound_records::zero_words(&w, 0, 12)
}

// A task from T on: it does not run, and its record is zeros.
#[tactic(auto, using(crate::proofs::Unused::from_T))]
pub fn unused_ok(c: Task) -> bool
    ensures { (y : Machine) (k : ℕ) → y.state.config.tasks ≤ k → result ≡ sound_task y k c }
{
    let running = c.running;
    idle_ok(c) & !running
}
