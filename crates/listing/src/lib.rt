// The tags in the set: how many they are, and all of them in a bucket. A tag counts at the one place where it is looked up: place
// number `tag mod size` of the head or, where that is empty, of the head's predecessor. So each tag of the buckets that the two nodes
// place is looked at once.
#![tactic(auto)]

ghost use Rattle.std.specs.Prelude.{◌≡◌, ◌≤◌, length, Ok, false};
ghost use Rattle.listing_place.specs.PlaceTags.{tags_at};
ghost use Rattle.listing.specs.Listing.{tags_from, set_tags, add_to, adds, nothing};

use bucket::{Bucket, Response};
use listing_place::count_place;
use looked_up::NodeLookedAt;
use spec::State;

// The head as the node that is looked at.
fn head_of<'a>(s: &State, ns: &'a [u32], bs: &'a [u32]) -> NodeLookedAt<'a>
    ensures opened { (result.config ≡ s.now.config) × (result.nodes.now ≡ ns.now) × (result.buckets.now ≡ bs.now) }
    ensures head { (result.head ≡ s.now.head) × (result.node ≡ s.now.head) × (result.old ≡ false) }
{
    NodeLookedAt {
        config: s.config,
        nodes: ns,
        buckets: bs,
        head: s.head,
        node: s.head,
        old: false,
    }
}

// ---- how many

// (Compiled by itself: put into both of its calls it would make `yard_c` larger than a Cortex-M3 may have it.)
#[inline(never)]
fn count_node(n: &NodeLookedAt<'_>) -> u32
    ensures { (result ≡ length (tags_from n.now 0 32)) × (result ≤ 2048) }
{
    let mut found: u32 = 0;
    for j in 0..pool::PLACES {
        found += count_place(n, j);
    }
    found
}

pub fn count(s: State, ns: &[u32], bs: &[u32]) -> u32
    ensures { result ≡ length (set_tags s.config ns.now bs.now s.head) }
{
    let head = head_of(&s, ns, bs);
    let found = count_node(&head);
    let q = pool::pred_at(ns, s.head);
    if q == 0 {
        return found;
    }
    let node = pool::number_of(q);
    found
        + count_node(&NodeLookedAt {
            node,
            old: true,
            ..head
        })
}

// ---- which

// The bucket with a tag more; where it is full and the tag is not in it, Err with the full bucket.
#[tactic(auto, unfolding(crate::specs::Listing::add_to))]
fn add_to(b: Bucket, tag: u32) -> Result<Bucket, Bucket>
    ensures { result ≡ add_to (Ok b) tag }
{
    let d = b.add(tag);
    match d.answer {
        Response::Full => Err(d.bucket),
        Response::Yes | Response::No | Response::Frozen => Ok(d.bucket),
    }
}

// The bucket with a place's tags more; Err has the full bucket: the tags that were put in before one found no room.
fn gather_place(n: &NodeLookedAt<'_>, j: u32, had: Bucket) -> Result<Bucket, Bucket>
    ensures { result ≡ adds (Ok had) (tags_at n.now j) }
{
    let l = pool::place_at(n.nodes, n.node, j);
    if l == 0 {
        return Ok(had);
    }
    let b = pool::buckets::load(n.buckets, l as usize - 1);
    let mut out = had;
    for t in b.tags() {
        if n.looks_up(j, *t) {
            out = add_to(out, *t)?;
        }
    }
    Ok(out)
}

// The bucket with a node's tags more; Err has the same.
fn gather_node(n: &NodeLookedAt<'_>, had: Bucket) -> Result<Bucket, Bucket>
    ensures { result ≡ adds (Ok had) (tags_from n.now 0 32) }
{
    let mut out = had;
    for j in 0..pool::PLACES {
        out = gather_place(n, j, out)?;
    }
    Ok(out)
}

// All of them in a bucket; where they are more than 64, Err with the bucket of the first 64 that are met.
pub fn gather(s: State, ns: &[u32], bs: &[u32]) -> Result<Bucket, Bucket>
    ensures { result ≡ adds nothing (set_tags s.config ns.now bs.now s.head) }
{
    let mut words = [0u32; bucket::WORDS];
    words[0] = 1;
    let head = head_of(&s, ns, bs);
    let x = gather_node(&head, Bucket { words })?;
    let q = pool::pred_at(ns, s.head);
    if q == 0 {
        return Ok(x);
    }
    let node = pool::number_of(q);
    gather_node(
        &NodeLookedAt {
            node,
            old: true,
            ..head
        },
        x,
    )
}
