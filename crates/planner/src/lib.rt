// What each call of a list comes to where one task makes them alone in a freshly opened set (paper 02, U11): `plan`. No step is run: a call's
// figures follow from the head's size and its predecessor's, from which of its places are filled, and from the plain set.
#![tactic(auto)]

ghost use Rattle.std.specs.Prelude.{◌≡◌, List, [], true, ℕ, ◌*◌, ◌≤◌, length, take};
ghost use Rattle.spec.specs.Sound.{listed_size};
ghost use Rattle.spec.specs.Listed.{slot};
ghost use Rattle.plans.specs.Plan.{fresh, empty_places, update_figures, all_figures, plan, list_of, figures_array, plan_array};
ghost use Rattle.planner.specs.Standing.{shape_of, shape, filling, filled_at, answer_of, Fits, Ready, Updated, Limited, Resized, Plans};

use bucket::{Bucket, Changed, Response};
use plan_heads::Head;
use plans::{Calls, Figures, Planned, Refusal};
use spec::{Answer, Call, Config};

// What the figures depend on between two calls: the head, and the plain set, as a bucket that may change.
#[derive(Clone, Copy)]
struct Standing {
    head: Head,
    set: Bucket,
}

// A call's figures, and what it leaves.
#[derive(Clone, Copy)]
struct Outcome {
    figures: Figures,
    next: Standing,
}

// What a bucket answers, as the answer of a call. The plain set is never frozen.
fn answer(r: Response) -> Answer
    ensures { result ≡ answer_of r }
{
    match r {
        Response::Yes => Answer::Yes,
        Response::No | Response::Frozen => Answer::No,
        Response::Full => Answer::Full,
    }
}

// The steps of filling n empty places.
fn fill_steps(h: Head, n: u32) -> u32
    requires { n ≤ 32 }
    ensures { (result ≡ filling h * n) × (result ≤ 288) }
{
    match h.pred {
        Some(pred) if u64::from(h.size) == 2 * u64::from(pred) => 7 * n,
        _ => 9 * n,
    }
}

// How many of these places are empty.
#[tactic(auto, using(crate::proofs::Places::empty_count, crate::proofs::Places::empty_few))]
fn empties(filled: &[bool]) -> usize
    ensures { (result ≡ empty_places filled.now) × (result ≤ length filled.now) }
{
    filled.iter().filter(|f| !**f).count()
}

// How many of the head's places are empty.
fn empty_places(h: Head) -> u32
    requires { h.size ≤ 32 }
    ensures { (result ≡ empty_places (take h.size h.filled)) × (result ≤ h.size) }
{
    empties(&h.filled[..h.size as usize]) as u32
}

// The figures of an insert or a remove with this answer, whose tag's place is i.
fn update_figures(h: Head, i: usize, answer: Answer) -> Figures
    requires { Fits h i }
    ensures { (ts : List ℕ) → result ≡ update_figures (shape_of h ts) i answer }
{
    if h.filled[i] {
        Figures {
            answer,
            own: 3,
            buckets: 0,
        }
    } else {
        Figures {
            answer,
            own: 3 + fill_steps(h, 1),
            buckets: 1,
        }
    }
}

// The head with place i filled.
fn fill(mut h: Head, i: usize) -> Head
    requires { Fits h i }
    ensures { result ≡ filled_at h i }
{
    h.filled[i] = true;
    h
}

// The place of a tag.
fn place(g: Config, tag: u32, h: Head) -> usize
    requires { listed_size h.size ≡ true }
    ensures { (result ≡ slot g tag h.size) × (Fits h result) }
{
    bucket::slot(g, tag, h.size) as usize
}

// An insert or a remove, to which the plain set answered so.
fn update(g: Config, h: Head, tag: u32, c: Changed) -> Outcome
    requires { listed_size h.size ≡ true }
    ensures { Updated g h tag c result }
{
    let i = place(g, tag, h);
    Outcome {
        figures: update_figures(h, i, answer(c.answer)),
        next: Standing {
            head: fill(h, i),
            set: c.bucket,
        },
    }
}

impl Standing {
    // A freshly opened set.
    fn fresh() -> Self
        ensures { (shape result ≡ fresh) × (Ready result) }
    {
        let head = Head {
            pred: None,
            size: 1,
            filled: [true; 32],
        };
        let mut words = [0u32; 66];
        words[0] = 1;
        let set = Bucket { words };
        Self { head, set }
    }

    fn insert(self, g: Config, tag: u32) -> Outcome
        requires { Ready self }
        ensures { Plans g self Call.Insert tag result }
    {
        update(g, self.head, tag, self.set.add(tag))
    }

    fn remove(self, g: Config, tag: u32) -> Outcome
        requires { Ready self }
        ensures { Plans g self Call.Remove tag result }
    {
        update(g, self.head, tag, self.set.remove(tag))
    }

    fn contains(self, g: Config, tag: u32) -> Outcome
        requires { Ready self }
        ensures { Plans g self Call.Contains tag result }
    {
        let i = place(g, tag, self.head);
        let figures = Figures {
            answer: Answer::from(self.set.has(tag)),
            own: if self.head.filled[i] { 3 } else { 5 },
            buckets: 0,
        };
        Outcome {
            figures,
            next: self,
        }
    }

    // A resize that ends limit.
    fn limited(self) -> Outcome
        ensures { Limited self result }
    {
        let figures = Figures {
            answer: Answer::Limit,
            own: 1,
            buckets: 0,
        };
        Outcome {
            figures,
            next: self,
        }
    }

    // A resize to this size: every place is filled, and those of the new head are empty.
    fn resize(self, size: u32) -> Outcome
        requires { self.head.size ≤ 32 }
        ensures { Resized self size result }
    {
        let empty = empty_places(self.head);
        let steps = fill_steps(self.head, empty);
        let figures = Figures {
            answer: Answer::Done,
            own: 4 + 3 * (self.head.size - empty) + steps,
            buckets: empty,
        };
        let head = plan_heads::resized(self.head, size);
        Outcome {
            figures,
            next: Standing { head, ..self },
        }
    }

    fn grow(self) -> Outcome
        requires { Ready self }
        ensures { (g : Config) (tag : ℕ) → Plans g self Call.Grow tag result }
    {
        if self.head.size == 32 {
            self.limited()
        } else {
            self.resize(2 * self.head.size)
        }
    }

    fn shrink(self) -> Outcome
        requires { Ready self }
        ensures { (g : Config) (tag : ℕ) → Plans g self Call.Shrink tag result }
    {
        if self.head.size == 1 {
            self.limited()
        } else {
            self.resize(self.head.size / 2)
        }
    }

    fn call(self, g: Config, c: Planned) -> Outcome
        requires { Ready self }
        ensures { Plans g self c.call c.tag result }
    {
        match c.call {
            Call::Insert => self.insert(g, c.tag),
            Call::Remove => self.remove(g, c.tag),
            Call::Contains => self.contains(g, c.tag),
            Call::Grow => self.grow(),
            Call::Shrink => self.shrink(),
        }
    }
}

// Figures of nothing, 64 times.
#[tactic(auto, unfolding(plans::specs::Plan::figures_array))]
fn no_figures() -> [Figures; 64]
    ensures { result ≡ figures_array [] }
{
    let none = Figures {
        answer: Answer::No,
        own: 0,
        buckets: 0,
    };
    [none; 64]
}

// The figures of these calls, in their order.
fn all_figures(g: Config, calls: &[Planned]) -> [Figures; 64]
    requires { length calls.now ≤ 64 }
    ensures { result ≡ figures_array (all_figures g fresh calls.now) }
{
    let mut figures = no_figures();
    let mut s = Standing::fresh();
    for (i, c) in calls.iter().enumerate() {
        let r = s.call(g, *c);
        figures[i] = r.figures;
        s = r.next;
    }
    figures
}

// The figures of a list of calls of one task, of either version and under the old rule for tag 0, then figures of nothing.
pub fn plan(version: u32, calls: Calls) -> Result<[Figures; 64], Refusal>
    ensures { result ≡ plan_array (plan version (list_of calls)) }
{
    if version < 1 || 2 < version {
        return Err(Refusal::Version);
    }
    if plan_heads::too_long(calls.count) {
        return Err(Refusal::TooLong);
    }
    let g = state::with_version(state::config(1), version);
    Ok(all_figures(g, &calls.call[..calls.count]))
}
