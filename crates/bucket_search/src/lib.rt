// The search for a tag among the 66 words of a bucket. Its contract holds for any words: what they say of tags, `tags_in` of specs/, is
// defined for all of them.
#![tactic(auto)]

ghost use Rattle.std.specs.Prelude.{◌≡◌, true, ◌≤◌, length, ltb};
ghost use Rattle.spec.specs.Lists.{filter, ascending};
ghost use Rattle.bucket_search.specs.Tags.{rank, tags_in};

// A bucket's words.
pub const WORDS: usize = 66;

// The search among the n tags, counted in a byte: how many at the front are below this one.
pub fn position(w: &[u32; WORDS], n: u8, tag: u32) -> u8
    requires { (n ≡ length (tags_in w.now)) × (n ≤ 64) }
    ensures rank { result ≡ rank tag (tags_in w.now) }
    ensures most { result ≤ 64 }
    ensures below { ascending (tags_in w.now) ≡ true → result ≡ length (filter (λ k. ltb k tag) (tags_in w.now)) }
{
    for p in 0..n {
        if tag <= w[2 + p as usize] {
            return p;
        }
    }
    n
}
