// Where a tag is looked up: at place number `tag mod size` of the head or, where that is empty, of the head's predecessor.
#![tactic(auto)]

ghost use Rattle.std.specs.Prelude.{◌≡◌};
ghost use Rattle.looked_up.specs.LookedUp.{looks_up};

use spec::Config;

// A node whose places are looked at: the head, or the head's predecessor, `old`. With how the set was opened, and both pools.
#[derive(Clone, Copy)]
pub struct NodeLookedAt<'a> {
    pub config: Config,
    pub nodes: &'a [u32],
    pub buckets: &'a [u32],
    pub head: u32,
    pub node: u32,
    pub old: bool,
}

impl<'a> NodeLookedAt<'a> {
    // Place j of the node is where the tag is looked up. For the head's predecessor the head's own place must be empty.
    #[tactic(auto, unfolding(crate::specs::LookedUp::looked_up, crate::specs::LookedUp::left_over))]
    pub fn looks_up(&self, j: u32, tag: u32) -> bool
        ensures { result ≡ looks_up self.now j tag }
    {
        bucket::slot(self.config, tag, pool::size_at(self.nodes, self.node)) == j
            && (!self.old || pool::place_for_at(self.nodes, self.head, self.config, tag) == 0)
    }
}
