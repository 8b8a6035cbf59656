// The words of both pools. Here: a node's words read, one word written, a whole pool's length; with the writes of `pool_writes`.
// `buckets` has a bucket by its number. Every function takes any words and numbers: a read past the end gives 0, and a write past the
// end changes nothing.
#![tactic(auto)]

pub mod buckets;

ghost use Rattle.std.specs.Prelude.{◌≡◌, ◌<◌, get_or, set};
ghost use Rattle.spec.specs.Entries.{pool_fits};
ghost use Rattle.spec.specs.Words.{number, size, pred, place};
ghost use Rattle.spec.specs.Listed.{slot};

use spec::Config;

// Zeros, words over the first of a part, a record of so many words by its number, a node anew.
pub use pool_writes::{new_node, put_record, record, write_over, zero};

// A node's words and how many of them are places, a bucket's words and its most tags, the most nodes and buckets.
pub const NODE_WORDS: usize = pool_writes::NODE_WORDS;

pub const PLACES: u32 = 32;

pub const BUCKET_WORDS: usize = bucket::WORDS;

pub const MOST_TAGS: usize = bucket::MOST_TAGS;

pub const MOST_NODES: u32 = 64;

pub const MOST_BUCKETS: u32 = 1024;

// ---- reads, 0 past the end

pub fn word(s: &[u32], at: usize) -> u32
    ensures { result ≡ get_or s.now at 0 }
{
    if at < s.len() { s[at] } else { 0 }
}

// The number of a link, 0 for none.
pub fn number_of(l: u32) -> u32
    ensures { result ≡ number l }
{
    l.saturating_sub(1)
}

// Of node number k: `_at`. Of the node that a link names: `_of`. (Both, since a walk has numbers and a line has links: with one of them each of some twenty
// calls would name the number of its link.)
#[tactic(auto, unfolding(spec::specs::Words::size))]
pub fn size_at(ns: &[u32], k: u32) -> u32
    ensures { result ≡ size ns.now k }
{
    word(ns, NODE_WORDS * (k as usize))
}

#[tactic(auto, unfolding(spec::specs::Words::pred))]
pub fn pred_at(ns: &[u32], k: u32) -> u32
    ensures { result ≡ pred ns.now k }
{
    word(ns, NODE_WORDS * (k as usize) + 1)
}

#[tactic(auto, unfolding(spec::specs::Words::place))]
pub fn place_at(ns: &[u32], k: u32, i: u32) -> u32
    ensures { result ≡ place ns.now k i }
{
    word(ns, NODE_WORDS * (k as usize) + 2 + i as usize)
}

// The place where the tag is looked up in a set opened so.
pub fn place_for_at(ns: &[u32], k: u32, g: Config, tag: u32) -> u32
    ensures { result ≡ place ns.now k (slot g tag (size ns.now k)) }
{
    place_at(ns, k, bucket::slot(g, tag, size_at(ns, k)))
}

pub fn size_of(ns: &[u32], l: u32) -> u32
    ensures { result ≡ size ns.now (number l) }
{
    size_at(ns, number_of(l))
}

pub fn pred_of(ns: &[u32], l: u32) -> u32
    ensures { result ≡ pred ns.now (number l) }
{
    pred_at(ns, number_of(l))
}

pub fn place_of(ns: &[u32], l: u32, i: u32) -> u32
    ensures { result ≡ place ns.now (number l) i }
{
    place_at(ns, number_of(l), i)
}

pub fn place_for(ns: &[u32], l: u32, g: Config, tag: u32) -> u32
    ensures { result ≡ place ns.now (number l) (slot g tag (size ns.now (number l))) }
{
    place_for_at(ns, number_of(l), g, tag)
}

// ---- a whole pool

// So many words are records of this width, 1 up to most.
#[tactic(auto, unfolding(spec::specs::Entries::pool_fits))]
pub fn fits(width: usize, most: usize, words: usize) -> bool
    requires { 0 < width }
    ensures { result ≡ pool_fits width most words }
{
    words % width == 0 && 1 <= words / width && words / width <= most
}

// ---- a word

// Stores v at `at`; past the end nothing.
pub fn put(s: &mut [u32], at: usize, v: u32)
    ensures { s.new ≡ set s.old at v }
{
    if at < s.len() {
        s[at] = v;
    }
}
