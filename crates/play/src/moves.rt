// The moves of each side, in the order in which they are tried: whether one may be made, and what it leaves. A move is made in the lent
// pools, and what it may write there is kept.
ghost use Rattle.std.specs.Prelude.{◌≡◌, List, true, false, ℕ, ◌<◌};
ghost use Rattle.spec.specs.Machine.{machine_of, task_of};
ghost use Rattle.spec.specs.Sound.{sound};
ghost use Rattle.spec.specs.Entries.{start, step};
ghost use Rattle.game.specs.Game.{lanes_may, after_lanes, ends_insert, office_may, after_office};
ghost use Rattle.play.specs.Moves.{ends_of, PlayedTo};

use game::{LanesMove, OfficeMove};
use spec::{Call, Output, Progress, State};
use undo::Kept;

// A move that was made: whether it ended task 0's call, the state after it, and the words that it may have written, as they were.
#[derive(Clone, Copy)]
pub struct Played {
    pub ends: bool,
    pub state: State,
    pub kept: Kept,
}

// ---- a task's step, a start of task 2, a pass

// Whether this answer to a step of task k ends task 0's call.
#[tactic(auto, unfolding(crate::specs::Moves::ends_of, game::specs::Game::ended))]
fn ends_call(k: u32, out: Output) -> bool
    ensures { result ≡ ends_of k out }
{
    k == 0 && matches!(out, Ok(Progress::End(_, _, _)))
}

fn step_task(s: State, k: u32, ns: &mut [u32], bs: &mut [u32]) -> Played
    requires { (k < 8) × (sound (machine_of s ns.old bs.old) ≡ true) }
    ensures { PlayedTo (machine_of s ns.old bs.old) (ends_of k (step (machine_of s ns.old bs.old) k).out)
        (step (machine_of s ns.old bs.old) k).machine result ns.new bs.new }
{
    let kept = undo::keep(s, s.task[k as usize], ns, bs);
    let d = hashset::step(s, k, ns, bs);
    Played {
        ends: ends_call(k, d.out),
        state: d.state,
        kept,
    }
}

// Nothing is written, and what is kept is what is there.
fn write_nothing(s: State, next: State, ns: &[u32], bs: &[u32]) -> Played
    requires { sound (machine_of s ns.now bs.now) ≡ true }
    ensures { PlayedTo (machine_of s ns.now bs.now) false (machine_of next ns.now bs.now) result
        ns.now bs.now }
{
    let kept = undo::keep(s, s.task[0], ns, bs);
    Played {
        ends: false,
        state: next,
        kept,
    }
}

fn start_resize(s: State, call: Call, ns: &[u32], bs: &[u32]) -> Played
    requires { sound (machine_of s ns.now bs.now) ≡ true }
    ensures { PlayedTo (machine_of s ns.now bs.now) false
        (start (machine_of s ns.now bs.now) 2 call 0).machine result
        ns.now bs.now }
{
    let d = hashset::start(s, 2, call, 0, ns, bs);
    write_nothing(s, d.state, ns, bs)
}

// ---- the lanes

// Whether task k runs.
#[tactic(auto, unfolding(spec::specs::Machine::task_of, spec::specs::Machine::idle))]
fn runs(s: State, k: usize) -> bool
    requires { k < 8 }
    ensures { (ns bs : List ℕ) → result ≡ (task_of (machine_of s ns bs) k).running }
{
    s.task[k].running
}

#[tactic(auto, unfolding(game::specs::Game::lanes_may))]
pub fn lanes_may(s: State, m: LanesMove) -> bool
    ensures { (ns bs : List ℕ) → result ≡ lanes_may (machine_of s ns bs) m }
{
    match m {
        LanesMove::StepTask0 => runs(s, 0),
        LanesMove::StepTask1 => runs(s, 1),
        LanesMove::LanesPass => true,
    }
}

#[tactic(auto, unfolding(game::specs::Game::after_lanes, game::specs::Game::ends_insert, crate::specs::Moves::ends_of))]
pub fn play_lanes(s: State, m: LanesMove, ns: &mut [u32], bs: &mut [u32]) -> Played
    requires { sound (machine_of s ns.old bs.old) ≡ true }
    ensures { PlayedTo (machine_of s ns.old bs.old) (ends_insert (machine_of s ns.old bs.old) m)
        (after_lanes (machine_of s ns.old bs.old) m) result ns.new bs.new }
{
    match m {
        LanesMove::StepTask0 => step_task(s, 0, ns, bs),
        LanesMove::StepTask1 => step_task(s, 1, ns, bs),
        LanesMove::LanesPass => write_nothing(s, s, ns, bs),
    }
}

// ---- the office

#[tactic(auto, unfolding(game::specs::Game::office_may))]
pub fn office_may(s: State, o: OfficeMove) -> bool
    ensures { (ns bs : List ℕ) → result ≡ office_may (machine_of s ns bs) o }
{
    match o {
        OfficeMove::StepTask2 => runs(s, 2),
        OfficeMove::StartGrow | OfficeMove::StartShrink => !runs(s, 2),
        OfficeMove::OfficePass => true,
    }
}

#[tactic(auto, unfolding(game::specs::Game::after_office, crate::specs::Moves::ends_of))]
pub fn play_office(s: State, o: OfficeMove, ns: &mut [u32], bs: &mut [u32]) -> Played
    requires { sound (machine_of s ns.old bs.old) ≡ true }
    ensures { PlayedTo (machine_of s ns.old bs.old) false
        (after_office (machine_of s ns.old bs.old) o) result ns.new bs.new }
{
    match o {
        OfficeMove::StepTask2 => step_task(s, 2, ns, bs),
        OfficeMove::StartGrow => start_resize(s, Call::Grow, ns, bs),
        OfficeMove::StartShrink => start_resize(s, Call::Shrink, ns, bs),
        OfficeMove::OfficePass => write_nothing(s, s, ns, bs),
    }
}
