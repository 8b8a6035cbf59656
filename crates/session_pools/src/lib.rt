// The pools that a session uses: words for them, the parts of lent ones, and a node's size.
#![tactic(auto)]

ghost use Rattle.std.specs.Prelude.{◌≡◌, ◌≤◌, length, replicate};
ghost use Rattle.spec.specs.Words.{size};
ghost use Rattle.session_pools.specs.PoolParts.{extent};

// 64 nodes of 34 words, all 0. Lending the array needs the length.
pub fn node_words() -> [u32; 2176]
    ensures { (2176 ≡ length result) × (result ≡ replicate 2176 0) }
{
    [0; 2176]
}

// 200 buckets of 66 words, all 0.
pub fn bucket_words() -> [u32; 13200]
    ensures { (13200 ≡ length result) × (result ≡ replicate 13200 0) }
{
    [0; 13200]
}

// How many words of a lent pool serve n records of so many words each, at most `most` of them: none where n is out of bounds or the pool is too short.
#[tactic(auto, using(crate::proofs::Laws::extents))]
fn extent(width: usize, most: u32, n: u32, words: usize) -> usize
    requires { width ≤ 66 }
    ensures { (result ≡ extent width most n words) × (result ≤ words) }
{
    if n < 1 || most < n {
        return 0;
    }
    let needed = width * n as usize;
    if needed <= words { needed } else { 0 }
}

// How many words of a lent pool serve n nodes.
pub fn node_extent(n: u32, words: usize) -> usize
    ensures { (result ≡ extent 34 64 n words) × (result ≤ words) }
{
    extent(34, 64, n, words)
}

// How many words of a lent pool serve n buckets.
pub fn bucket_extent(n: u32, words: usize) -> usize
    ensures { (result ≡ extent 66 200 n words) × (result ≤ words) }
{
    extent(66, 200, n, words)
}

// The word that holds a node's size.
#[tactic(auto, unfolding(spec::specs::Words::size))]
pub fn node_size(ns: &[u32], k: u32) -> u32
    ensures { result ≡ size ns.now k }
{
    ns.get(34 * k as usize).copied().unwrap_or(0)
}
