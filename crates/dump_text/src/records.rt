// The nodes and buckets: first the chain, the head and its predecessor with their places, then the other held ones, then the numbers of those that are free.
#![tactic(auto, using(crate::proofs::Laws::printing))]

ghost use Rattle.dump_text.specs.Within.{Within};

use crate::holders::holders;
use crate::print::{field, record_field};
use crate::words::{Kind, Set};
use session_bytes::Page;

// Node k: its size and predecessor.
fn node(page: &mut Page<'_>, nodes: &[u32], k: u32)
    ensures { Within page.old page.new }
{
    field(page, "node ", k);
    field(page, ": size=", pool::size_at(nodes, k));
    record_field(page, " predecessor=node ", pool::pred_at(nodes, k));
}

// The words of a bucket, from its first on.
fn words_of(page: &mut Page<'_>, words: &[u32])
    ensures { Within page.old page.new }
{
    match pool::word(words, 0) {
        0 => page.bytes(b": frozen"),
        1 => page.bytes(b": may change"),
        _ => {}
    }
    let count = pool::word(words, 1);
    field(page, " count=", count);
    for i in 0..count.min(pool::MOST_TAGS as u32) {
        field(page, " tag=", pool::word(words, 2 + i as usize));
    }
}

// Bucket k.
fn bucket(page: &mut Page<'_>, buckets: &[u32], k: u32)
    ensures { Within page.old page.new }
{
    field(page, "bucket ", k);
    let at = pool::BUCKET_WORDS * (k as usize);
    if at < buckets.len() {
        words_of(page, &buckets[at..]);
    }
}

// ---- the chain

// Place i of node k, on a line of its own, with its bucket.
fn place(page: &mut Page<'_>, set: Set<'_>, k: u32, i: u32)
    ensures { Within page.old page.new }
{
    field(page, "  place ", i);
    let link = pool::place_at(set.nodes, k, i);
    match link.checked_sub(1) {
        None => page.bytes(b": nil\n"),
        Some(b) => {
            page.bytes(b": ");
            bucket(page, set.buckets, b);
            holders(page, set, Kind::Bucket, link);
        }
    }
}

// The node that a link names, with its places; nothing for an empty link.
fn linked(page: &mut Page<'_>, name: &str, set: Set<'_>, link: u32)
    ensures { Within page.old page.new }
{
    let Some(k) = link.checked_sub(1) else {
        return;
    };
    page.bytes(name.as_bytes());
    node(page, set.nodes, k);
    holders(page, set, Kind::Node, link);
    for i in 0..pool::size_at(set.nodes, k).min(pool::PLACES) {
        place(page, set, k, i);
    }
}

// The head's link.
fn head_link(set: Set<'_>) -> u32 {
    let head = set.head();
    if head < pool::MOST_NODES { head + 1 } else { 0 }
}

pub fn chain(page: &mut Page<'_>, set: Set<'_>)
    ensures { Within page.old page.new }
{
    let head = head_link(set);
    linked(page, "head ", set, head);
    linked(page, "predecessor ", set, pool::pred_of(set.nodes, head));
}

// ---- the other held ones

// Whether a place of node k names the bucket that a link names.
fn places_name(nodes: &[u32], k: u32, link: u32) -> bool {
    (0..pool::PLACES).any(|i| pool::place_at(nodes, k, i) == link)
}

// Whether a record that a link names stands in the chain.
fn in_chain(set: Set<'_>, kind: Kind, link: u32) -> bool {
    let nodes = set.nodes;
    let head = head_link(set);
    let pred = pool::pred_of(nodes, head);
    match kind {
        Kind::Node => link == head || link == pred,
        Kind::Bucket => {
            places_name(nodes, pool::number_of(head), link)
                || (pred != 0 && places_name(nodes, pool::number_of(pred), link))
        }
    }
}

// The filled places of node k.
fn filled_places(page: &mut Page<'_>, nodes: &[u32], k: u32)
    ensures { Within page.old page.new }
{
    for i in 0..pool::PLACES {
        if let Some(b) = pool::place_at(nodes, k, i).checked_sub(1) {
            field(page, " place ", i);
            field(page, "=bucket ", b);
        }
    }
}

// Record k of a kind, without its places' buckets.
fn record(page: &mut Page<'_>, set: Set<'_>, kind: Kind, k: u32)
    ensures { Within page.old page.new }
{
    match kind {
        Kind::Node => {
            node(page, set.nodes, k);
            filled_places(page, set.nodes, k);
        }
        Kind::Bucket => bucket(page, set.buckets, k),
    }
}

// The held records of a kind that stand not in the chain.
pub fn others(page: &mut Page<'_>, set: Set<'_>, kind: Kind)
    ensures { Within page.old page.new }
{
    for k in 0..pool::MOST_BUCKETS {
        let link = k + 1;
        if set.is_held(kind, k) && !in_chain(set, kind, link) {
            record(page, set, kind, k);
            holders(page, set, kind, link);
        }
    }
}

// ---- the free ones

// The numbers of the free records of a kind, or that there is none.
fn free_of(page: &mut Page<'_>, name: &str, set: Set<'_>, kind: Kind)
    ensures { Within page.old page.new }
{
    page.bytes(name.as_bytes());
    let mut none = true;
    for k in 0..pool::MOST_BUCKETS {
        if set.is_free(kind, k) {
            field(page, " ", k);
            none = false;
        }
    }
    if none {
        page.bytes(b" none");
    }
}

pub fn free(page: &mut Page<'_>, set: Set<'_>)
    ensures { Within page.old page.new }
{
    free_of(page, "free: nodes", set, Kind::Node);
    free_of(page, "; buckets", set, Kind::Bucket);
    page.bytes(b"\n");
}
