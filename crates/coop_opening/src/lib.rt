// Opening the cooperative bucket on a lent pool of versions.
#![tactic(auto)]

ghost use Rattle.std.specs.Prelude.{◌≡◌, List, ℕ};
ghost use Rattle.coop_spec.specs.Numbers.{refusal_number};
ghost use Rattle.coop_spec.specs.Entries.{not_opened, opening};
ghost use Rattle.coop_opening.specs.Opening.{opened_of};

use coop_spec::{Refusal, State};

// What an opening gives: its refusal, if it is refused, and the state. The state is there in both cases, so this is no Result: a refused opening gives a
// state of zeros, which is promised.
#[derive(Clone, Copy)]
pub struct Opened {
    pub refusal: Option<Refusal>,
    pub state: State,
}

// A refused opening: the state has no task and no version.
#[tactic(auto, unfolding(coop_spec::specs::Entries::not_opened))]
fn refused(why: Refusal) -> Opened
    ensures { (ws : List ℕ) → opened_of result ws ≡ not_opened (refusal_number why) ws }
{
    Opened {
        refusal: Some(why),
        state: coop_state::fresh_state(0, 0),
    }
}

// Opens the bucket on a lent pool of versions.
#[tactic(auto, using(crate::proofs::Laws::pool_of), unfolding(coop_spec::specs::Entries::opening, coop_spec::specs::Entries::fresh_machine))]
pub fn open(t: u32, vs: &mut [u32]) -> Opened
    ensures { opened_of result vs.new ≡ opening t vs.old }
{
    if !sound_records::within(1, 8, t) {
        return refused(Refusal::BadTasks);
    }
    let n = vs.len();
    if !pool::fits(coop_pool::VERSION_WORDS, coop_pool::MOST_VERSIONS, n) {
        return refused(Refusal::BadVersions);
    }
    pool::zero(vs);
    let v = (n / coop_pool::VERSION_WORDS) as u32;
    Opened {
        refusal: None,
        state: coop_state::fresh_state(t, v),
    }
}
