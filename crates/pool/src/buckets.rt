// Bucket number k of the bucket pool, by value. It is read out of the pool, changed by its own methods, and written back. For a number
// past the pool: zero words, and nothing is changed.
ghost use Rattle.std.specs.Prelude.{◌≡◌};
ghost use Rattle.bucket.specs.Bucket.{found, tags_in, added, removed, frozen_of};
ghost use Rattle.pool.specs.Pool.{bucket_at, store_bucket, answer_of};

use bucket::{Bucket, Changed, Response};

// What a bucket of the pool answers, and how many tags it holds afterwards.
#[derive(Clone, Copy)]
pub struct Answered {
    pub response: Response,
    pub count: u32,
}

// Without the words, which are stored.
fn answer_of(d: &Changed) -> Answered
    ensures { result ≡ answer_of d.now }
{
    Answered {
        response: d.answer,
        count: d.count,
    }
}

#[tactic(auto, using(crate::proofs::At::bucket_record))]
pub fn load(pool: &[u32], k: usize) -> Bucket
    ensures { result ≡ bucket_at pool.now k }
{
    Bucket {
        words: pool_writes::record(pool, k),
    }
}

pub fn has_at(pool: &[u32], k: usize, tag: u32) -> bool
    ensures { result ≡ found tag (tags_in (bucket_at pool.now k).words) }
{
    load(pool, k).has(tag)
}

#[tactic(auto, unfolding(crate::specs::Pool::store_bucket, pool_writes::specs::Writes::store_record))]
pub fn store_at(pool: &mut [u32], k: usize, b: Bucket)
    ensures { pool.new ≡ store_bucket pool.old k b }
{
    pool_writes::put_record(pool, k, &b.words);
}

pub fn add_at(pool: &mut [u32], k: usize, tag: u32) -> Answered
    ensures { (result ≡ answer_of (added (bucket_at pool.old k) tag))
        × (pool.new ≡ store_bucket pool.old k (added (bucket_at pool.old k) tag).bucket) }
{
    let d = load(pool, k).add(tag);
    store_at(pool, k, d.bucket);
    answer_of(&d)
}

pub fn remove_at(pool: &mut [u32], k: usize, tag: u32) -> Answered
    ensures { (result ≡ answer_of (removed (bucket_at pool.old k) tag))
        × (pool.new ≡ store_bucket pool.old k (removed (bucket_at pool.old k) tag).bucket) }
{
    let d = load(pool, k).remove(tag);
    store_at(pool, k, d.bucket);
    answer_of(&d)
}

pub fn freeze_at(pool: &mut [u32], k: usize)
    ensures { pool.new ≡ store_bucket pool.old k (frozen_of (bucket_at pool.old k)) }
{
    let b = load(pool, k).freeze();
    store_at(pool, k, b);
}
