// Two lanes' notes put in one order (paper 02, U8): `merge`. The search tries the first lane's next call, and the second's where that
// cannot succeed, so it asks each beginning of an order at most once: 3,430 calls of the plain set for two lists of six (Cost of notes).
// No set is kept: where all calls so far were answered rightly, a tag is inside if an odd number of them put it in or took it out.
#![tactic(auto)]

ghost use Rattle.std.specs.Prelude.{◌≡◌, List, ℕ, ◌+◌, ◌≤◌, ◌<◌, length, drop, set, Some, true, false, MatchResult};
ghost use Rattle.std.specs.List.{list_all};
ghost use Rattle.notes.specs.declared.Unfit.TheVariants.{LongerOrResize};
ghost use Rattle.notes.specs.Merge.{search, unfit, merge, list_of, merged};
ghost use Rattle.merge.specs.Inside.{of_set, said, moves, turns, toggled};
ghost use Rattle.merge.specs.Trying.{left, RightNext, Standing, StandsAt, tried};

use notes::{Lane, Note, Notes, Unfit};
use spec::{Answer, Call};

// The answer to a call, by whether its tag is inside.
fn said(call: Call, inside: bool) -> Answer
    ensures { result ≡ said call inside }
{
    match call {
        Call::Insert => Answer::from(!inside),
        Call::Remove | Call::Contains => Answer::from(inside),
        Call::Grow | Call::Shrink => Answer::Done,
    }
}

// Whether a call changes the set where it is answered yes.
fn moves(call: Call) -> bool
    ensures { result ≡ moves call }
{
    matches!(call, Call::Insert | Call::Remove)
}

// Whether a call, as it was answered, put the tag in or took it out.
#[tactic(auto, unfolding(crate::specs::Inside::turns))]
fn turns(x: Note, tag: u32) -> bool
    ensures { result ≡ turns tag x }
{
    x.tag == tag && matches!(x.answer, Answer::Yes) && moves(x.call)
}

// Whether a tag is inside after some calls, by whether it was inside before them.
#[tactic(auto, unfolding(crate::specs::Inside::toggled))]
fn toggled(calls: &[Note], tag: u32, before: bool) -> bool
    ensures { result ≡ toggled tag before calls.now }
{
    let mut inside = before;
    for x in calls {
        inside = if turns(*x, tag) { !inside } else { inside };
    }
    inside
}

// Whether the list l has a k-th call that is answered rightly after the calls a and b.
fn right(l: &[Note], k: usize, a: &[Note], b: &[Note]) -> bool
    requires { (length a.now ≤ 6) × (length b.now ≤ 6) }
    ensures { RightNext l.now k a.now b.now result }
{
    let Some(&x) = l.get(k) else {
        return false;
    };
    let inside = toggled(b, x.tag, toggled(a, x.tag, false));
    said(x.call, inside) == x.answer
}

// An order with a lane at this place.
fn with_lane(mut order: [Option<Lane>; 12], k: usize, lane: Lane) -> [Option<Lane>; 12]
    requires { k < 12 }
    ensures { result ≡ set order k (Some lane) }
{
    order[k] = Some(lane);
    order
}

// An order of the calls from the i-th of a and the j-th of b on: its lanes, from the place of the first of these calls on.
fn search(a: &[Note], b: &[Note], i: usize, j: usize) -> Option<[Option<Lane>; 12]>
    requires { Standing a.now b.now i j }
    ensures { (S : List ℕ) → StandsAt a.now b.now i j S
        → result ≡ tried (i + j) (search (left a.now b.now i j) S (drop i a.now) (drop j b.now)) }
{
    let m = a.len();
    let n = b.len();
    let k = i + j;
    if m + n <= k {
        return Some([None; 12]);
    }
    if right(a, i, &a[..i], &b[..j]) {
        if let Some(order) = search(a, b, i + 1, j) {
            return Some(with_lane(order, k, Lane::First));
        }
    }
    if right(b, j, &a[..i], &b[..j]) {
        if let Some(order) = search(a, b, i, j + 1) {
            return Some(with_lane(order, k, Lane::Second));
        }
    }
    None
}

fn is_set_call(call: Call) -> bool
    ensures { result ≡ of_set call }
{
    matches!(call, Call::Insert | Call::Remove | Call::Contains)
}

// Whether no call of a list is a resize.
fn has_no_resize(calls: &[Note]) -> bool
    ensures { result ≡ list_all (λ x. of_set x.call) calls.now }
{
    calls.iter().all(|x| is_set_call(x.call))
}

// The calls of a list that has at most six, and no resize.
fn fit(l: &Notes) -> Result<&[Note], Unfit>
    ensures { MatchResult result (λ s. (s.now ≡ list_of l.now) × (unfit (list_of l.now) ≡ false))
        (λ e. (e ≡ LongerOrResize) × (unfit (list_of l.now) ≡ true)) }
{
    match l.note.get(..l.count) {
        Some(calls) if has_no_resize(calls) => Ok(calls),
        _ => Err(Unfit::LongerOrResize),
    }
}

// The order of both lists from an empty set that takes the first lane's call wherever both choices can still succeed, if there is one.
pub fn merge(a: Notes, b: Notes) -> Result<Option<[Option<Lane>; 12]>, Unfit>
    ensures { result ≡ merged (merge (list_of a) (list_of b)) }
{
    let a = fit(&a)?;
    let b = fit(&b)?;
    Ok(search(a, b, 0, 0))
}
