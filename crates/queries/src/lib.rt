// The entries that read the yard set and change nothing of it: list and show.
#![tactic(auto)]

ghost use Rattle.std.specs.Prelude.{◌≡◌};
ghost use Rattle.spec.specs.Entries.{show, list};
ghost use Rattle.spec.specs.Machine.{machine_of};

use spec::{Listing, Refusal, State};

// Writes the tags in the set, ascending, and gives their number; later words are kept.
pub fn list(s: State, ns: &[u32], bs: &[u32], out: &mut [u32]) -> Listing
    ensures { (result ≡ (list (machine_of s ns.now bs.now) out.old).says)
        × (out.new ≡ (list (machine_of s ns.now bs.now) out.old).words) }
{
    if !soundness::sound(s, ns, bs) {
        return Err(Refusal::Spoilt);
    }
    let Ok(b) = listing::gather(s, ns, bs) else {
        return Err(Refusal::Spoilt);
    };
    if out.len() < bucket::MOST_TAGS {
        return Err(Refusal::ShortList);
    }
    let tags = b.tags();
    pool::write_over(out, tags);
    Ok(tags.len() as u32)
}

// The tags of bucket k, where they stand; an empty part for a bad number or spoilt memory.
pub fn show<'a>(s: State, ns: &[u32], bs: &'a [u32], k: u32) -> &'a [u32]
    ensures { result.now ≡ show (machine_of s ns.now bs.now) k }
{
    if !soundness::sound(s, ns, bs) {
        return &[];
    }
    if s.buckets <= k {
        return &[];
    }
    if pool::MOST_BUCKETS <= k {
        return &[];
    }
    let a = bucket::WORDS * (k as usize);
    let n = pool::word(bs, a + 1);
    let f = a + 2;
    let e = f + n as usize;
    if bs.len() < e {
        return &[];
    }
    &bs[f..e]
}
