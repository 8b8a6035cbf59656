// The number of a tag's place in a node, by what the set was opened with and the node's size.
#![tactic(auto)]

ghost use Rattle.std.specs.Prelude.{◌≡◌, ◌%◌};
ghost use Rattle.spec.specs.Listed.{key, slot};

use spec::Config;

// n mod size, n itself for size 0. A place's number, which is no tag, goes through this alone.
pub fn remainder(n: u32, size: u32) -> u32
    ensures { result ≡ n % size }
{
    if size == 0 { n } else { n % size }
}

// What of a tag is taken mod a node's size in a set opened so: in version 2 the tag without its check digit.
#[tactic(auto, unfolding(spec::specs::Listed::key))]
pub fn key(g: Config, tag: u32) -> u32
    ensures { result ≡ key g tag }
{
    if g.version == 2 { tag / 10 } else { tag }
}

// The number of a tag's place in a node of this size.
#[tactic(auto, unfolding(spec::specs::Listed::slot))]
pub fn slot(g: Config, tag: u32, size: u32) -> u32
    ensures { result ≡ slot g tag size }
{
    remainder(key(g, tag), size)
}
