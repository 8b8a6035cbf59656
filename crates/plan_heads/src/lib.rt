// The head as the planner keeps it, the head that a resize makes, and which lists are too long.
#![tactic(auto)]

ghost use Rattle.std.specs.Prelude.{◌≡◌, ltb};
ghost use Rattle.plan_heads.specs.Heads.{resized};

// The head: the size of its predecessor, if it has one, its own size, and of each place whether it is filled. Places at or past the size are
// not read.
#[derive(Clone, Copy)]
pub struct Head {
    pub pred: Option<u32>,
    pub size: u32,
    pub filled: [bool; 32],
}

// The head after a resize to this size: its places are empty.
pub fn resized(h: Head, size: u32) -> Head
    ensures { result ≡ resized h size }
{
    Head {
        pred: Some(h.size),
        size,
        filled: [false; 32],
    }
}

// A list of so many calls is refused.
pub fn too_long(n: usize) -> bool
    ensures { result ≡ ltb 64 n }
{
    64 < n
}
