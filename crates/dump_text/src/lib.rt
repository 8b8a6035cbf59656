// A set's memory as text for a fitter with Figure 2 at hand, in a lent buffer: the state, the tasks, the chain of the head and its predecessor with their
// places, the other held records, the numbers of the free ones, and the listed tags with the bucket that decides each. Printing goes over words: the state's
// 113 (`yard_words`), those of the pools, and one for each record that says whether it is held. Which records are held, which tags are listed and where a tag
// is looked up is asked of the crates `held`, `queries` and `pool`.
#![tactic(auto)]

mod holders;
mod print;
mod records;
mod tasks;
mod words;

ghost use Rattle.std.specs.Prelude.{◌≡◌, ◌≤◌, length, replicate};
ghost use Rattle.spec.specs.Machine.{machine_of};
ghost use Rattle.spec.specs.Entries.{list};
ghost use Rattle.dump_text.specs.Decides.{deciding};
ghost use Rattle.dump_text.specs.Within.{Within};

use print::{field, record_field};
use session_bytes::Page;
use spec::{Config, Listing, State};
use words::{Kind, Set};

// ---- the listed tags, with the bucket that decides each

// The link of the bucket that decides whether the tag is in the set (`deciding_decides`), 0 if there is none.
#[tactic(auto, unfolding(crate::specs::Decides::deciding))]
fn deciding(g: Config, ns: &[u32], head: u32, tag: u32) -> u32
    ensures { result ≡ deciding g ns.now head tag }
{
    let p = pool::place_for_at(ns, head, g, tag);
    if p != 0 {
        return p;
    }
    let q = pool::pred_at(ns, head);
    if q == 0 {
        return 0;
    }
    pool::place_for(ns, q, g, tag)
}

// A dump: what a list of the set gives, which is how many tags the dump ends with, or the refusal for which it has none; and how many bytes were printed.
#[derive(Clone, Copy)]
pub struct Dumped {
    pub listing: Listing,
    pub printed: usize,
}

// The listed tags, none where a list is refused.
#[tactic(auto, using(crate::proofs::Laws::printing))]
fn listed_tags(page: &mut Page<'_>, s: State, ns: &[u32], bs: &[u32]) -> Listing
    ensures listing { result ≡ (list (machine_of s ns.now bs.now) (replicate 64 0)).says }
    ensures within { Within page.old page.new }
{
    let mut ts = [0u32; 64];
    let listed = queries::list(s, ns, bs, &mut ts);
    if let Ok(n) = listed {
        for tag in ts.iter().take(n as usize) {
            field(page, "tag ", *tag);
            record_field(page, ": bucket ", deciding(s.config, ns, s.head, *tag));
            page.bytes(b"\n");
        }
    }
    listed
}

// ---- the whole

// The memory of a set, from the buffer's first byte on, within it. A buffer that is full then may lack some of it.
#[tactic(auto, using(crate::proofs::Laws::printing))]
pub fn dump(s: State, ns: &[u32], bs: &[u32], out: &mut [u8]) -> Dumped
    ensures { (result.listing ≡ (list (machine_of s ns.now bs.now) (replicate 64 0)).says)
        × (result.printed ≤ length out.old) }
{
    let mut w = [0; words::WORDS];
    words::gather(s, ns, &mut w);
    let set = Set {
        words: &w,
        nodes: ns,
        buckets: bs,
    };
    let mut page = Page::new(out);
    tasks::numbers(&mut page, set);
    tasks::tasks(&mut page, set);
    records::chain(&mut page, set);
    records::others(&mut page, set, Kind::Node);
    records::others(&mut page, set, Kind::Bucket);
    records::free(&mut page, set);
    let listing = listed_tags(&mut page, s, ns, bs);
    Dumped {
        listing,
        printed: page.printed(),
    }
}
