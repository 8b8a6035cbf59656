// The step that mattered (specs of mattered), over events given as words and two lent pools: the events are run once and the calls that end
// are noted; then they are run from the opening on without each step in turn, until the calls that end are not those noted.
#![tactic(auto)]

ghost use Rattle.std.specs.Prelude.{◌≡◌, ◌&&◌, not, ◌≤◌, ◌<◌, length};
ghost use Rattle.spec.specs.Entries.{opening};
ghost use Rattle.session.specs.Grammar.{equals};
ghost use Rattle.schedule_events.specs.Events.{events_of};
ghost use Rattle.mattered.specs.EndedCalls.{ended_calls};
ghost use Rattle.mattered.specs.Mattered.{step_at, without, mattered};
ghost use Rattle.mattered_replay.specs.Replay.{all_words};
ghost use Rattle.mattered_run.specs.Judged.{said_of, Judged};

use mattered::Verdict;
use mattered_replay::Replay;
use spec::Config;

// Whether the calls that end without event k are those noted.
fn same_without(r: Replay, k: usize, ns: &mut [u32], bs: &mut [u32], noted: &[u32]) -> bool
    ensures { result ≡ equals noted.now
        (all_words (ended_calls (opening r.entry.config ns.old bs.old).machine (without k (events_of r.entry.count r.entry.events.now)))) }
{
    // four words for each of 256 ended calls
    let mut calls = [0u32; 1024];
    let m = mattered_replay::run_without(r, k, ns, bs, &mut calls);
    &calls[..4 * m] == noted
}

// Whether event k is a step, and without it the calls that end are not those noted.
fn matters(r: Replay, k: usize, ns: &mut [u32], bs: &mut [u32], noted: &[u32]) -> bool
    requires { k < r.count }
    ensures { result ≡ (step_at k (events_of r.entry.count r.entry.events.now)
        && not (equals noted.now
        (all_words (ended_calls (opening r.entry.config ns.old bs.old).machine (without k (events_of r.entry.count r.entry.events.now)))))) }
{
    match schedule_events::asked_by(pool::word(r.events, 4 * k)) {
        Some(_) => false,
        None => !same_without(r, k, ns, bs, noted),
    }
}

// The place, from 1, of the first event that is such a step.
fn search(r: Replay, ns: &mut [u32], bs: &mut [u32], noted: &[u32]) -> Option<u32>
    requires { ((opening r.config ns.old bs.old).refusal ≡ 0)
        × (noted.now ≡ all_words (ended_calls (opening r.config ns.old bs.old).machine (events_of r.count r.events.now))) }
    ensures { said_of result ≡ mattered (opening r.entry.config ns.old bs.old).machine (events_of r.entry.count r.entry.events.now) }
{
    for k in 0..r.count {
        if matters(r, k, ns, bs, noted) {
            return Some(k as u32 + 1);
        }
    }
    None
}

// The place of the earliest event that is a step whose omission alters the list of ended calls, after an opening with these pools.
fn first_step(r: Replay, ns: &mut [u32], bs: &mut [u32]) -> Option<u32>
    requires { (opening r.config ns.old bs.old).refusal ≡ 0 }
    ensures { said_of result ≡ mattered (opening r.entry.config ns.old bs.old).machine (events_of r.entry.count r.entry.events.now) }
{
    // four words for each of 256 ended calls
    let mut calls = [0u32; 1024];
    let m = mattered_replay::run_without(r, r.count, ns, bs, &mut calls);
    search(r, ns, bs, &calls[..4 * m])
}

// Opens with g, which leaves nothing of the runs before it.
fn open_again(g: Config, ns: &mut [u32], bs: &mut [u32])
    ensures { (ns.new ≡ (opening g ns.old bs.old).machine.nodes)
        × (bs.new ≡ (opening g ns.old bs.old).machine.buckets) }
{
    opening::open(g, ns, bs);
}

// The verdict on n events after an opening with g and these pools. A refusal is judged before a word is written (`refusal_keeps`); with another
// verdict the pools are left as the opening leaves them. More than 256 events are refused by their number n, however many words are lent; words
// past the end of `events` read as 0, so that an event there is a step of task 0 (`past_the_words`).
pub fn earliest(g: Config, ns: &mut [u32], bs: &mut [u32], events: &[u32], n: usize) -> Verdict
    ensures { Judged g ns.old bs.old (events_of n events.now) result ns.new bs.new }
{
    if let Some(why) = opening::refusal(g, ns.len(), bs.len()) {
        return Verdict::Refused(why.number());
    }
    if mattered_standing::too_many(n) {
        return Verdict::Refused(15);
    }
    let r = Replay {
        config: g,
        events,
        count: n,
    };
    let found = first_step(r, ns, bs);
    open_again(g, ns, bs);
    match found {
        Some(place) => Verdict::Place(place),
        None => Verdict::NoStep,
    }
}
