// The pool of versions: a version's first word and its set, read and written, and the version that an operation makes of another, which
// the bucket then has. A version's 66 words are read and stored by `pool::buckets`, which looks at no first word. `taking` says which version is taken next.
#![tactic(auto)]

pub mod taking;

ghost use Rattle.std.specs.Prelude.{◌≡◌, true, List, ℕ, ◌+◌, ◌*◌, ◌≤◌, eqb, length, set, if◌then◌else◌};
ghost use Rattle.spec.specs.Lists.{member, ascending};
ghost use Rattle.spec.specs.Words.{tags, bucket_of};
ghost use Rattle.bucket.specs.Bucket.{tags_in, added, removed};
ghost use Rattle.coop_spec.specs.Machine.{machine_of};
ghost use Rattle.coop_spec.specs.Words.{op_word, response, install, apply};
ghost use Rattle.coop_pool.specs.Versions.{Tagged, has_room, made};

use bucket::{Bucket, Changed};
use coop_spec::{Operation, State};

// A version's words, and the most versions.
pub const VERSION_WORDS: usize = bucket::WORDS;

pub const MOST_VERSIONS: usize = 1024;

// ---- a version's first word

#[tactic(auto, unfolding(coop_spec::specs::Words::op_word))]
pub fn op_word(vs: &[u32], k: u32) -> u32
    ensures { (s : State) → result ≡ op_word (machine_of s vs.now) k }
{
    pool::word(vs, VERSION_WORDS * (k as usize))
}

pub fn set_op_word(vs: &mut [u32], k: u32, m: u32)
    ensures { vs.new ≡ set vs.old (66 * k) m }
{
    pool::put(vs, VERSION_WORDS * (k as usize), m)
}

// ---- a version's set

pub fn has(vs: &[u32], k: u32, tag: u32) -> bool
    requires { Tagged vs.now k }
    ensures { result ≡ member tag (tags vs.now k) }
{
    pool::buckets::has_at(vs, k as usize, tag)
}

// What an operation responds to version k's set: lines 132 to 137.
#[tactic(auto, unfolding(coop_spec::specs::Words::response))]
pub fn responds(op: Operation, vs: &[u32], k: u32) -> bool
    requires { Tagged vs.now k }
    ensures { result ≡ response op (tags vs.now k) }
{
    let h = has(vs, k, op.tag);
    if op.kind == coop_state::INVOKE_INSERT {
        !h
    } else {
        h
    }
}

// ---- the version that an operation makes

fn changed_by(op: Operation, b: Bucket) -> Changed
    ensures { result ≡ (if eqb op.kind 1 then added b op.tag else removed b op.tag) }
{
    if op.kind == coop_state::INVOKE_INSERT {
        b.add(op.tag)
    } else {
        b.remove(op.tag)
    }
}

fn made_by(op: Operation, b: Bucket) -> Bucket
    requires { (length (tags_in b.words) ≤ 64) × (ascending (tags_in b.words) ≡ true) }
    ensures { result ≡ made op (tags_in b.words) }
{
    // a first word of 0: frozen for a bucket, for a version that no operation is being applied to it
    changed_by(op, bucket::opened(b)).bucket.freeze()
}

// Whether the version that an operation makes of version k has at most 64 tags.
pub fn has_room(op: Operation, vs: &[u32], k: u32) -> bool
    requires { Tagged vs.now k }
    ensures { result ≡ has_room op (tags vs.now k) }
{
    if op.kind == coop_state::INVOKE_INSERT {
        let b = pool::buckets::load(vs, k as usize);
        b.count() < bucket::MOST_TAGS || b.has(op.tag)
    } else {
        true
    }
}

// The version that an operation makes of version k; where there is no room it has that version's tags.
pub fn made_of(op: Operation, vs: &[u32], k: u32) -> Bucket
    requires { Tagged vs.now k }
    ensures { result ≡ made op (tags vs.now k) }
{
    made_by(op, pool::buckets::load(vs, k as usize))
}

// Version k gets these words, and the bucket has it.
pub fn install(s: State, vs: &mut [u32], k: u32, v: Bucket) -> State
    requires { 66 * k + 66 ≤ length vs.old }
    ensures { (ts : List ℕ) → v.words ≡ bucket_of 0 ts → machine_of result vs.new ≡ apply (install k ts) (machine_of s vs.old) }
{
    pool::buckets::store_at(vs, k as usize, v);
    coop_state::with_node(s, k)
}
