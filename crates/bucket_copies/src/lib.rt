// The two ways in which line 49 makes a bucket: the tags of one bucket that belong to a place, and the tags of two buckets. Every
// contract holds for any words, but for `union`, which needs tags that ascend, as they do in sound memory.
#![tactic(auto)]

ghost use Rattle.std.specs.Prelude.{◌≡◌, true, ◌+◌, ◌≤◌, ◌<◌, length};
ghost use Rattle.spec.specs.Lists.{ascending};
ghost use Rattle.bucket.specs.Bucket.{tags_in};
ghost use Rattle.bucket_copies.specs.Copies.{joined, split_of};
ghost use Rattle.bucket_copies.specs.Walk.{taken, next_of};

use bucket::Bucket;
use spec::Config;

// The changeable bucket of m's tags that belong to place i of a node of this size, in a set opened so.
pub fn split(m: Bucket, g: Config, size: u32, i: u32) -> Bucket
    ensures { result ≡ split_of m g size i }
{
    let mut words = [0u32; bucket::WORDS];
    words[0] = 1;
    let mut len = 0;
    for t in m.tags() {
        if bucket::slot(g, *t, size) == i {
            words[2 + len] = *t;
            len += 1;
        }
    }
    words[1] = len as u32;
    Bucket { words }
}

// A tag of a walk through two buckets, and by how many tags the walk goes on in each of them, one or none.
#[derive(Clone, Copy)]
pub struct Taken {
    pub tag: u32,
    pub first: usize,
    pub second: usize,
}

fn take(tag: u32, first: usize, second: usize) -> Taken
    ensures { result ≡ taken tag first second }
{
    Taken { tag, first, second }
}

// The tag that is next in what is left of two buckets' tags.
#[tactic(auto, unfolding(crate::specs::Walk::next_of))]
fn next(xs: &[u32], ys: &[u32]) -> Taken
    ensures next { result ≡ next_of xs.now ys.now }
    ensures within { (result.first ≤ length xs.now) × (result.second ≤ length ys.now) }
    ensures one_or_none { (result.first ≤ 1) × (result.second ≤ 1) }
    ensures moves { 0 < length xs.now + length ys.now → 0 < result.first + result.second }
{
    match (xs, ys) {
        ([], []) => take(0, 0, 0),
        ([], [y, ..]) => take(*y, 0, 1),
        ([x, ..], []) => take(*x, 1, 0),
        ([x, ..], [y, ..]) => {
            if *x < *y {
                take(*x, 1, 0)
            } else if *x == *y {
                take(*y, 1, 1)
            } else {
                take(*y, 0, 1)
            }
        }
    }
}

// The changeable bucket of both buckets' tags, which ascend, in one walk through the two; None where they are more than 64.
pub fn union(a: Bucket, b: Bucket) -> Option<Bucket>
    requires { (ascending (tags_in a.words) ≡ true) × (ascending (tags_in b.words) ≡ true) }
    ensures { result ≡ joined a b }
{
    let mut words = [0u32; bucket::WORDS];
    words[0] = 1;
    let mut len = 0;
    let mut xs = a.tags();
    let mut ys = b.tags();
    while 0 < xs.len() + ys.len() {
        if bucket::MOST_TAGS <= len {
            return None;
        }
        let t = next(xs, ys);
        words[2 + len] = t.tag;
        len += 1;
        xs = &xs[t.first..];
        ys = &ys[t.second..];
    }
    words[1] = len as u32;
    Some(Bucket { words })
}
