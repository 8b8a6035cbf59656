// Opening the yard set on two lent pools.
#![tactic(auto)]

ghost use Rattle.std.specs.Prelude.{◌≡◌, length, Some};
ghost use Rattle.spec.specs.Entries.{opening};
ghost use Rattle.spec.specs.Numbers.{opening_number};
ghost use Rattle.spec.specs.Machine.{zero_config, state_of, machine_of};
ghost use Rattle.opening.specs.Opening.{refusal_of, first_node, first_bucket};

use spec::{Config, Refusal, State};

const MOST_NODES: usize = pool::MOST_NODES as usize;

const MOST_BUCKETS: usize = pool::MOST_BUCKETS as usize;

// What an opening gives: its refusal, if it is refused, and the state. The state is there in both cases, so this is no Result: a refused opening gives a
// state of zeros, which is promised.
#[derive(Clone, Copy)]
pub struct Opened {
    pub refusal: Option<Refusal>,
    pub state: State,
}

// ---- which refusal

// The refusal of an opening with these lengths of the slices (`opening_refusal`). Writes nothing.
#[tactic(auto, unfolding(crate::specs::Opening::refusal_of))]
pub fn refusal(g: Config, n: usize, m: usize) -> Option<Refusal>
    ensures { opening_number result ≡ refusal_of g n m }
{
    if !sound_records::within(1, 8, g.tasks) {
        return Some(Refusal::BadTasks);
    }
    if !pool::fits(pool::NODE_WORDS, MOST_NODES, n) {
        return Some(Refusal::BadNodes);
    }
    if !pool::fits(pool::BUCKET_WORDS, MOST_BUCKETS, m) {
        return Some(Refusal::BadBuckets);
    }
    if !sound_records::within(1, 2, g.version) {
        return Some(Refusal::BadVersion);
    }
    None
}

fn not_open(why: Refusal) -> Opened
    ensures { (result.refusal ≡ Some why) × (result.state ≡ state_of zero_config 0 0) }
{
    Opened {
        refusal: Some(why),
        state: state::zero_state(),
    }
}

// ---- what an accepted opening writes

fn put_first_node(ns: &mut [u32])
    ensures { ns.new ≡ first_node (length ns.old) }
{
    pool::zero(ns);
    pool::put(ns, 0, 1);
    pool::put(ns, 2, 1);
}

fn put_first_bucket(bs: &mut [u32])
    ensures { bs.new ≡ first_bucket (length bs.old) }
{
    pool::zero(bs);
    pool::put(bs, 0, 1);
}

// Opens the set on two lent pools.
pub fn open(g: Config, ns: &mut [u32], bs: &mut [u32]) -> Opened
    ensures { (opening_number result.refusal ≡ (opening g ns.old bs.old).refusal)
        × (machine_of result.state ns.new bs.new ≡ (opening g ns.old bs.old).machine) }
{
    if let Some(why) = refusal(g, ns.len(), bs.len()) {
        return not_open(why);
    }
    let h = (ns.len() / pool::NODE_WORDS) as u32;
    let b = (bs.len() / pool::BUCKET_WORDS) as u32;
    put_first_node(ns);
    put_first_bucket(bs);
    Opened {
        refusal: None,
        state: state::fresh_state(g, h, b),
    }
}
