// Records of the pools, by their places: "a bucket's number plus 1, or 0 for empty".
use reference_words::words::{BUCKETS, HEAD, Memory, NODES, VERSION, either, get, plus, rest};

// Where word j is of the node, or of the bucket, in a place. For an empty place that is past the end of memory.
pub fn node_at(place: u32, j: u32) -> usize {
    NODES + (place as usize + 999999) % 1000000 * 34 + j as usize
}

pub fn bucket_at(place: u32, j: u32) -> usize {
    BUCKETS + (place as usize + 999999) % 1000000 * 66 + j as usize
}

pub fn node(w: &Memory, place: u32, j: u32) -> u32 {
    get(w, node_at(place, j))
}

// The head's place.
pub fn head(w: &Memory) -> u32 {
    plus(get(w, HEAD), 1)
}

// The number of a node's place for a tag, and that place. "Version 2 uses tag div 10 wherever version 1 uses the tag before a mod".
pub fn home(w: &Memory, of: u32, tag: u32) -> u32 {
    rest(either(get(w, VERSION) == 2, tag / 10, tag), node(w, of, 0))
}

pub fn at_home(w: &Memory, of: u32, tag: u32) -> u32 {
    node(w, of, plus(2, home(w, of, tag)))
}
