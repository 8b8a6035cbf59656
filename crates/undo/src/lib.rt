// The words that a step may change, kept before it and put back after it (paper 02, U14: "Lent memory holds afterwards what it held
// before"). A step writes words of at most one record: of a node at lines 24, 27 and 50, of a bucket at 36, 44, 48, 49 and 52.
#![tactic(auto)]

ghost use Rattle.std.specs.Prelude.{◌≡◌, List, ℕ};
ghost use Rattle.spec.specs.Machine.{machine_of};
ghost use Rattle.undo.specs.Undo.{store_words, written_node, written_bucket, kept_of, nodes_back, buckets_back};

use bucket::Bucket;
use pool::NODE_WORDS;
use spec::{State, Task};

// A node and a bucket, by their numbers, and the words that they held.
#[derive(Clone, Copy)]
pub struct Kept {
    pub node: u32,
    pub words: [u32; NODE_WORDS],
    pub bucket: u32,
    pub contents: Bucket,
}

// ---- the records that a step may write

// The node: the one that is taken at 27, else t.
fn written_node(s: State, c: Task, ns: &[u32]) -> u32
    ensures { (bs : List ℕ) → result ≡ written_node (machine_of s ns.now bs) c }
{
    match c.line {
        27 => held::free_node_of(s, ns).unwrap_or(0),
        _ => pool::number_of(c.t),
    }
}

// The bucket: the one that is taken at 49, b at 36, n at 52, else m.
fn written_bucket(s: State, c: Task, ns: &[u32]) -> u32
    ensures { (bs : List ℕ) → result ≡ written_bucket (machine_of s ns.now bs) c }
{
    match c.line {
        49 => held::free_bucket_of(s, ns).unwrap_or(0),
        36 => pool::number_of(c.b),
        52 => pool::number_of(c.n),
        _ => pool::number_of(c.m),
    }
}

// ---- keeping and putting back

// The records that a step of the task may write, with their words.
pub fn keep(s: State, c: Task, ns: &[u32], bs: &[u32]) -> Kept
    ensures { result ≡ kept_of (machine_of s ns.now bs.now) c }
{
    let node = written_node(s, c, ns);
    let bucket = written_bucket(s, c, ns);
    Kept {
        node,
        words: pool::record(ns, node as usize),
        bucket,
        contents: pool::buckets::load(bs, bucket as usize),
    }
}

// Writes over the words of node k; nothing for a number past the pool. (Not `pool::put_record`: that, compiled by itself for this caller and for a node anew,
// would ask an environment of C for memmove.)
#[tactic(auto, unfolding(crate::specs::Undo::store_words))]
fn store_words(ns: &mut [u32], k: usize, words: [u32; NODE_WORDS])
    ensures { ns.new ≡ store_words ns.old k words }
{
    if k < ns.len() / NODE_WORDS {
        ns[NODE_WORDS * k..NODE_WORDS * k + NODE_WORDS].copy_from_slice(&words);
    }
}

// Both records hold again what they held.
#[tactic(auto, unfolding(crate::specs::Undo::nodes_back, crate::specs::Undo::buckets_back))]
pub fn put_back(r: Kept, ns: &mut [u32], bs: &mut [u32])
    ensures { (ns.new ≡ nodes_back r ns.old) × (bs.new ≡ buckets_back r bs.old) }
{
    let words = r.words;
    store_words(ns, r.node as usize, words);
    pool::buckets::store_at(bs, r.bucket as usize, r.contents);
}
