// The tags in the set at one place of a node: those of the bucket there that are looked up at this place.
#![tactic(auto)]

ghost use Rattle.std.specs.Prelude.{◌≡◌, ◌≤◌, length};
ghost use Rattle.listing_place.specs.PlaceTags.{tags_at};

use looked_up::NodeLookedAt;

// How many, at place j of node n.
pub fn count_place(n: &NodeLookedAt<'_>, j: u32) -> u32
    ensures { (result ≡ length (tags_at n.now j)) × (result ≤ 64) }
{
    let l = pool::place_at(n.nodes, n.node, j);
    if l == 0 {
        return 0;
    }
    let b = pool::buckets::load(n.buckets, l as usize - 1);
    let mut found = 0;
    for t in b.tags() {
        if n.looks_up(j, *t) {
            found += 1;
        }
    }
    found
}
