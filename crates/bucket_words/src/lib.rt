// The 66 words of a bucket with a tag more and with a tag less, copied into fresh words.
#![tactic(auto)]

ghost use Rattle.std.specs.Prelude.{◌≡◌, true, false, ◌+◌, ◌≤◌, ◌<◌, length, drop};
ghost use Rattle.std.proofs.Math.Seq.{paste};
ghost use Rattle.spec.specs.Lists.{add_tag, remove_tag};
ghost use Rattle.spec.specs.Words.{bucket_of};
ghost use Rattle.bucket_search.specs.Tags.{rank, found, tags_in};

// A bucket's words.
pub const WORDS: usize = bucket_search::WORDS;

// d with n words of s, from word `from`, put at word `at`.
pub fn copied(d: [u32; WORDS], at: usize, s: &[u32; WORDS], from: usize, n: usize) -> [u32; WORDS]
    requires { (length s.now ≡ 66) × (at + n ≤ 66) × (from + n ≤ 66) }
    ensures { result ≡ paste d at (drop from s.now) n }
{
    let mut out = d;
    out[at..at + n].copy_from_slice(&s[from..from + n]);
    out
}

// The words of a changeable bucket with a tag more, at position p.
pub fn put(w: &[u32; WORDS], n: usize, p: usize, tag: u32) -> [u32; WORDS]
    requires { (length w.now ≡ 66) × (n ≡ length (tags_in w.now)) × (n < 64) × (p ≤ n) × (p ≡ rank tag (tags_in w.now))
        × (found tag (tags_in w.now) ≡ false) }
    ensures { result ≡ bucket_of 1 (add_tag tag (tags_in w.now)) }
{
    let mut out = [0u32; WORDS];
    out[0] = 1;
    out[1] = n as u32 + 1;
    out = copied(out, 2, w, 2, p);
    out[2 + p] = tag;
    copied(out, 3 + p, w, 2 + p, n - p)
}

// The words of a changeable bucket without the tag at position p.
pub fn cut(w: &[u32; WORDS], n: usize, p: usize, tag: u32) -> [u32; WORDS]
    requires { (length w.now ≡ 66) × (n ≡ length (tags_in w.now)) × (n ≤ 64) × (p < n) × (p ≡ rank tag (tags_in w.now))
        × (found tag (tags_in w.now) ≡ true) }
    ensures { result ≡ bucket_of 1 (remove_tag tag (tags_in w.now)) }
{
    let mut out = [0u32; WORDS];
    out[0] = 1;
    out[1] = n as u32 - 1;
    out = copied(out, 2, w, 2, p);
    copied(out, 2 + p, w, 3 + p, n - 1 - p)
}
