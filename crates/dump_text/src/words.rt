// The words that a dump is made from, and which records are held, as the crate `held` has it: a record is free exactly if a search that begins at it takes it.
use spec::State;

// The state's words, then one for each node that there may be, and one for each bucket: 1 if a search that begins there takes it, else 0.
const NODES_FROM: usize = yard_words::STATE_WORDS;

const BUCKETS_FROM: usize = NODES_FROM + pool::MOST_NODES as usize;

pub const WORDS: usize = BUCKETS_FROM + pool::MOST_BUCKETS as usize;

// Where the state's words have the number of tasks, of nodes, of buckets, and the head: docs/FITTERS.md has their order.
const TASKS: usize = 0;

const NODES: usize = 3;

const BUCKETS: usize = 4;

const HEAD: usize = 5;

// The number of the node that is taken if node k is tried first: the last one taken is then the one before it, going round.
fn node_from(s: State, ns: &[u32], k: u32) -> Option<u32> {
    let last_node = pool::number_of(if k == 0 { s.nodes } else { k });
    held::free_node_of(State { last_node, ..s }, ns)
}

// The same of bucket k.
fn bucket_from(s: State, ns: &[u32], k: u32) -> Option<u32> {
    let last_bucket = pool::number_of(if k == 0 { s.buckets } else { k });
    held::free_bucket_of(State { last_bucket, ..s }, ns)
}

// Fills in the words.
pub fn gather(s: State, ns: &[u32], words: &mut [u32; WORDS]) {
    for k in 0..pool::MOST_NODES {
        words[NODES_FROM + k as usize] = u32::from(node_from(s, ns, k) == Some(k));
    }
    for k in 0..pool::MOST_BUCKETS {
        words[BUCKETS_FROM + k as usize] = u32::from(bucket_from(s, ns, k) == Some(k));
    }
    yard_words::put_state(&mut words[..NODES_FROM], s);
}

// What a record is.
#[derive(Clone, Copy, PartialEq, Eq)]
pub enum Kind {
    Node,
    Bucket,
}

impl Kind {
    // Its name, before a number.
    pub fn name(self) -> &'static str {
        match self {
            Kind::Node => "node ",
            Kind::Bucket => "bucket ",
        }
    }
}

// What a dump is made from: those words, and the pools'.
#[derive(Clone, Copy)]
pub struct Set<'a> {
    pub words: &'a [u32],
    pub nodes: &'a [u32],
    pub buckets: &'a [u32],
}

impl<'a> Set<'a> {
    // How many tasks the set was opened with.
    pub fn tasks(self) -> u32 {
        pool::word(self.words, TASKS)
    }

    // How many records of a kind it was opened with.
    fn count(self, kind: Kind) -> u32 {
        match kind {
            Kind::Node => pool::word(self.words, NODES),
            Kind::Bucket => pool::word(self.words, BUCKETS),
        }
    }

    // The head's number.
    pub fn head(self) -> u32 {
        pool::word(self.words, HEAD)
    }

    // 1 if record k of a kind is taken if it is tried first, else 0.
    fn taken(self, kind: Kind, k: u32) -> u32 {
        match kind {
            Kind::Node => pool::word(self.words, NODES_FROM + k as usize),
            Kind::Bucket => pool::word(self.words, BUCKETS_FROM + k as usize),
        }
    }

    // Whether record k of a kind is free.
    pub fn is_free(self, kind: Kind, k: u32) -> bool {
        k < self.count(kind) && self.taken(kind, k) == 1
    }

    // Whether it is held.
    pub fn is_held(self, kind: Kind, k: u32) -> bool {
        k < self.count(kind) && !self.is_free(kind, k)
    }
}
