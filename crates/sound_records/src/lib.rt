// The records of both pools, tested for soundness: a node, a bucket, and a scan of each pool, which ends with the first record that
// is not sound.
#![tactic(auto)]

ghost use Rattle.std.specs.Prelude.{◌≡◌, ◌&&◌, ◌+◌, ◌-◌, ◌*◌, ◌≤◌, length, take, drop, leb};
ghost use Rattle.spec.specs.Lists.{member, all_true, every, ascending};
ghost use Rattle.spec.specs.Machine.{Machine};
ghost use Rattle.spec.specs.Sound.{within, zeros, listed_size, size_known, none_past_size, node_link, count_in_bounds, tags_ascend, zeros_after_tags};
ghost use Rattle.spec.specs.Sound.{sound_node, sound_nodes, sound_bucket, sound_buckets};

const NODE_WORDS: usize = pool::NODE_WORDS;

const PLACES: usize = pool::PLACES as usize;

const MOST_TAGS: usize = pool::MOST_TAGS;

const MOST_COUNT: u32 = pool::MOST_TAGS as u32;

// ---- numbers and lists

pub fn within(lo: u32, hi: u32, n: u32) -> bool
    ensures { result ≡ within lo hi n }
{
    lo <= n && n <= hi
}

// Each of the conditions holds. Here and in the loops over a record's words below there is no exit on the way, so that the loop is
// compiled to vector instructions; a scan exits between records.
pub fn all_true(w: &[bool]) -> bool
    ensures { result ≡ all_true w.now }
{
    let mut all = true;
    for holds in w {
        all &= *holds;
    }
    all
}

pub fn among(x: u32, s: &[u32]) -> bool
    ensures { result ≡ member x s.now }
{
    s.contains(&x)
}

// The n words from this one on are 0: their bitwise or is.
pub fn zero_words(w: &[u32], first: usize, n: usize) -> bool
    requires { first + n ≤ length w.now }
    ensures { result ≡ zeros n (drop first w.now) }
{
    let mut all: u32 = 0;
    for x in &w[first..first + n] {
        all |= *x;
    }
    all == 0
}

pub fn is_listed_size(n: u32) -> bool
    ensures { result ≡ listed_size n }
{
    among(n, &[1, 2, 4, 8, 16, 32])
}

// None, or a node of the pool of h nodes that has a size.
pub fn link_ok(ns: &[u32], h: u32, l: u32) -> bool
    ensures { (y : Machine) → y.nodes ≡ ns.now → y.state.nodes ≡ h → result ≡ node_link y l }
{
    l <= h && (l == 0 || pool::size_of(ns, l) != 0)
}

pub fn all_within(s: &[u32], b: u32) -> bool
    requires { length s.now ≤ 64 }
    ensures { result ≡ every (λ l. leb l b) s.now }
{
    let mut all = true;
    for x in s {
        all &= *x <= b;
    }
    all
}

// Those that do not ascend are counted: of tests joined as above the compiler makes more instructions here.
fn is_ascending(s: &[u32]) -> bool
    requires { length s.now ≤ 64 }
    ensures { result ≡ ascending s.now }
{
    let mut bad: u32 = 0;
    for i in 1..s.len() {
        if s[i] <= s[i - 1] {
            bad += 1;
        }
    }
    bad == 0
}

// ---- nodes: a node's first word is the part's

// The places of a node of size n: each a bucket of the pool or none, and none past the size.
fn places_ok(w: &[u32], b: u32, n: usize) -> bool
    requires { (34 ≤ length w.now) × (n ≤ 32) }
    ensures { result ≡ (every (λ l. leb l b) (take 32 (drop 2 w.now)) && zeros (32 - n) (drop (2 + n) w.now)) }
{
    let e = 2 + n;
    all_within(&w[2..e], b) && zero_words(w, e, PLACES - n)
}

// The size and the places. Each size has a call of its own, so that the compiler knows how many places it tests and how many must be 0.
fn sized_ok(w: &[u32], b: u32) -> bool
    requires { 34 ≤ length w.now }
    ensures { result ≡ (size_known w.now && (every (λ l. leb l b) (take 32 (drop 2 w.now)) && none_past_size w.now)) }
{
    match w[0] {
        0 => places_ok(w, b, 0),
        1 => places_ok(w, b, 1),
        2 => places_ok(w, b, 2),
        4 => places_ok(w, b, 4),
        8 => places_ok(w, b, 8),
        16 => places_ok(w, b, 16),
        32 => places_ok(w, b, 32),
        _ => false,
    }
}

fn node_ok(w: &[u32], ns: &[u32], h: u32, b: u32) -> bool
    requires { 34 ≤ length w.now }
    ensures { (y : Machine) → y.nodes ≡ ns.now → y.state.nodes ≡ h → y.state.buckets ≡ b → result ≡ sound_node y w.now }
{
    link_ok(ns, h, w[1]) && sized_ok(w, b)
}

pub fn nodes_ok(ns: &[u32], h: u32, b: u32) -> bool
    requires { (h ≤ 64) × (34 * h ≤ length ns.now) }
    ensures { (y : Machine) → y.nodes ≡ ns.now → y.state.nodes ≡ h → y.state.buckets ≡ b → result ≡ sound_nodes y h ns.now }
{
    for k in 0..h as usize {
        if !node_ok(&ns[NODE_WORDS * k..], ns, h, b) {
            return false;
        }
    }
    true
}

// ---- buckets: a bucket's first word is the part's

// The count, the tags and the words after them. Of an empty bucket the words are tested by one loop of a fixed length.
pub fn tags_ok(w: &[u32]) -> bool
    requires { 66 ≤ length w.now }
    ensures { result ≡ (count_in_bounds w.now && tags_ascend w.now && zeros_after_tags w.now) }
{
    let c = w[1];
    if c == 0 {
        return zero_words(w, 2, MOST_TAGS);
    }
    if MOST_COUNT < c {
        return false;
    }
    let n = c as usize;
    let e = 2 + n;
    is_ascending(&w[2..e]) && zero_words(w, e, MOST_TAGS - n)
}

fn bucket_ok(w: &[u32]) -> bool
    requires { 66 ≤ length w.now }
    ensures { result ≡ sound_bucket w.now }
{
    w[0] <= 1 && tags_ok(w)
}

pub fn buckets_ok(bs: &[u32], n: usize) -> bool
    requires { (n ≤ 1024) × (66 * n ≤ length bs.now) }
    ensures { result ≡ sound_buckets n bs.now }
{
    for k in 0..n {
        if !bucket_ok(&bs[pool::BUCKET_WORDS * k..]) {
            return false;
        }
    }
    true
}
