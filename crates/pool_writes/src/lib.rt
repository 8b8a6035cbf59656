// A pool's words written: zeros, words over the first of a part, a node anew. Every function takes any words and numbers: a write past
// the end changes nothing.
#![tactic(auto)]

ghost use Rattle.std.specs.Prelude.{◌≡◌, ◌<◌, length, replicate};
ghost use Rattle.pool_writes.specs.Writes.{write_front, record_at, store_record, store_node};

// A node's words.
pub const NODE_WORDS: usize = 34;

// Every word becomes 0.
pub fn zero(s: &mut [u32])
    ensures { s.new ≡ replicate (length s.old) 0 }
{
    s.fill(0);
}

// The words of v over the first words of a part; nothing where they do not fit.
#[tactic(auto, unfolding(crate::specs::Writes::write_front, spec::specs::Words::overwrite))]
pub fn write_over(part: &mut [u32], v: &[u32])
    ensures { part.new ≡ write_front part.old v.now }
{
    if v.len() <= part.len() {
        part[..v.len()].copy_from_slice(v);
    }
}

// ---- records of W words, by number: a pool is so many, one after the other

// The words of record k; zeros for a number past the pool.
pub fn record<const W: usize>(pool: &[u32], k: usize) -> [u32; W]
    requires { 0 < W }
    ensures { result ≡ record_at W pool.now k }
{
    let mut words = [0u32; W];
    if k < pool.len() / W {
        words.copy_from_slice(&pool[W * k..W * k + W]);
    }
    words
}

// Writes over the words of record k; nothing for a number past the pool.
pub fn put_record<const W: usize>(pool: &mut [u32], k: usize, words: &[u32; W])
    requires { 0 < W }
    ensures { pool.new ≡ store_record W pool.old k words.now }
{
    if k < pool.len() / W {
        pool[W * k..W * k + W].copy_from_slice(words);
    }
}

// Node k anew: its size and its predecessor's link, all places empty. Nothing for a number past the pool.
#[tactic(auto, unfolding(crate::specs::Writes::store_node, crate::specs::Writes::store_record, spec::specs::Words::node_of))]
pub fn new_node(ns: &mut [u32], k: usize, size: u32, pred: u32)
    ensures { ns.new ≡ store_node ns.old k size pred }
{
    let mut words = [0u32; NODE_WORDS];
    words[0] = size;
    words[1] = pred;
    put_record(ns, k, &words);
}
