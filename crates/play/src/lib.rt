// Lane against office (paper 02, U14): `game` says whether the lanes can force task 0's insert through. Each side's turn is worked out from
// the other's: `lanes_turn` and `office_turn` call each other, with one ply fewer left. The state goes by value; `moves` makes a move and
// keeps the words that it may write to the lent pools, which are put back once the plies after it are worked out.
#![tactic(auto)]

mod moves;

ghost use Rattle.std.specs.Prelude.{◌≡◌, List, true, ◌||◌, ℕ};
ghost use Rattle.spec.specs.Machine.{machine_of};
ghost use Rattle.spec.specs.Sound.{sound};
ghost use Rattle.game.specs.Game.{winning_move, office_loses, no_game, verdict};
ghost use Rattle.play.specs.Moves.{said_of};

use game::{LanesMove, OfficeMove, Verdict};
use spec::State;

// The lanes are to move, with so many plies left: a winning move, task 0 before task 1 before a pass, or none.
#[cycle(lanes_turn_office_turn)]
fn lanes_turn(s: State, left: u32, ns: &mut [u32], bs: &mut [u32]) -> Option<LanesMove>
    requires { sound (machine_of s ns.old bs.old) ≡ true }
    ensures { (said_of result ≡ winning_move left (machine_of s ns.old bs.old))
        × (ns.new ≡ ns.old) × (bs.new ≡ bs.old) }
{
    if left == 0 {
        return None;
    }
    for m in [
        LanesMove::StepTask0,
        LanesMove::StepTask1,
        LanesMove::LanesPass,
    ] {
        if !moves::lanes_may(s, m) {
            continue;
        }
        let p = moves::play_lanes(s, m, ns, bs);
        let wins = office_turn(p.ends, p.state, left - 1, ns, bs);
        undo::put_back(p.kept, ns, bs);
        if wins {
            return Some(m);
        }
    }
    None
}

// The office is to move, with so many plies left: task 0's insert has ended, or the lanes win whatever the office does.
#[cycle(lanes_turn_office_turn)]
fn office_turn(ended: bool, s: State, left: u32, ns: &mut [u32], bs: &mut [u32]) -> bool
    requires { sound (machine_of s ns.old bs.old) ≡ true }
    ensures { (result ≡ (ended || office_loses left (machine_of s ns.old bs.old)))
        × (ns.new ≡ ns.old) × (bs.new ≡ bs.old) }
{
    if ended {
        return true;
    }
    if left == 0 {
        return false;
    }
    for o in [
        OfficeMove::OfficePass,
        OfficeMove::StepTask2,
        OfficeMove::StartGrow,
        OfficeMove::StartShrink,
    ] {
        if !moves::office_may(s, o) {
            continue;
        }
        let p = moves::play_office(s, o, ns, bs);
        let win = lanes_turn(p.state, left - 1, ns, bs);
        undo::put_back(p.kept, ns, bs);
        if win.is_none() {
            return false;
        }
    }
    true
}

// N is out of range, there are fewer than three tasks, or task 0 does not run an insert.
#[tactic(auto, unfolding(game::specs::Game::no_game, game::specs::Game::inserts, spec::specs::Machine::task_of, spec::specs::Machine::idle))]
fn no_game(s: State, n: u32) -> bool
    ensures { (ns bs : List ℕ) → result ≡ no_game n (machine_of s ns bs) }
{
    !matches!(n, 1..=6) || s.config.tasks < 3 || !s.task[0].running || s.task[0].call != 1
}

// Whether the lanes can win within n of their turns against every play of the office, and by which first move. Lent memory holds
// afterwards what it held before.
pub fn game(s: State, n: u32, ns: &mut [u32], bs: &mut [u32]) -> Verdict
    ensures { (result ≡ verdict n (machine_of s ns.old bs.old))
        × (ns.new ≡ ns.old) × (bs.new ≡ bs.old) }
{
    if !soundness::sound(s, ns, bs) {
        return Verdict::Refused(8);
    }
    if no_game(s, n) {
        return Verdict::Refused(16);
    }
    match lanes_turn(s, 2 * n - 1, ns, bs) {
        Some(m) => Verdict::LanesWin(m),
        None => Verdict::OfficeHolds,
    }
}
