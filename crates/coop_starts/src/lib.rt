// A start of a call in memory that was found sound, for a task below T: whether it may start, the record that it gets, and the operation that an
// invoke fixes. `start` of coop comes here after its first two tests.
#![tactic(auto)]

ghost use Rattle.std.specs.Prelude.{◌≡◌, List, ◌&&◌, ℕ, ltb};
ghost use Rattle.coop_spec.specs.Machine.{machine_of, operation_of};
ghost use Rattle.coop_spec.specs.Entries.{fits_type, may_start, started, fixing};
ghost use Rattle.coop_lines.specs.Reply.{reply_of};
ghost use Rattle.coop_starts.specs.Starts.{start_of_task};

use coop_lines::Stepped;
use coop_spec::{Call, Progress, Refusal, State, Task};

// An invoke of operation n may have this type and tag.
#[tactic(auto, unfolding(coop_spec::specs::Entries::fits_type))]
fn fits_type(s: State, n: u32, kind: u32, tag: u32) -> bool
    ensures { (vs : List ℕ) → result ≡ (ltb n 64 && fits_type (operation_of (machine_of s vs) n) kind tag) }
{
    let op = coop_state::operation(s, n);
    n < 64 && (op.kind == 0 || (op.kind == kind && op.tag == tag))
}

#[tactic(auto, unfolding(coop_spec::specs::Entries::may_start))]
fn may_start(s: State, call: Call, n: u32, tag: u32) -> bool
    ensures { (vs : List ℕ) → result ≡ may_start (machine_of s vs) call n tag }
{
    match call {
        Call::InvokeInsert => fits_type(s, n, coop_state::INVOKE_INSERT, tag),
        Call::InvokeRemove => fits_type(s, n, coop_state::INVOKE_REMOVE, tag),
        Call::Freeze | Call::HasMember => true,
        Call::GetResponse => n < 64 && coop_state::operation(s, n).returned,
    }
}

// The record of a call that starts.
#[tactic(auto, unfolding(coop_spec::specs::Entries::started))]
fn begun(call: Call, n: u32, tag: u32) -> Task
    ensures { result ≡ started call n tag }
{
    match call {
        Call::InvokeInsert => coop_state::fresh_task(coop_state::INVOKE_INSERT, n, 0, 95),
        Call::InvokeRemove => coop_state::fresh_task(coop_state::INVOKE_REMOVE, n, 0, 95),
        Call::Freeze => coop_state::fresh_task(coop_state::FREEZE, 0, 0, 109),
        Call::HasMember => coop_state::fresh_task(coop_state::HAS_MEMBER, 0, tag, 112),
        Call::GetResponse => coop_state::fresh_task(coop_state::GET_RESPONSE, n, 0, 117),
    }
}

// An invoke fixes its operation's type and tag.
#[tactic(auto, unfolding(coop_spec::specs::Entries::fixing))]
fn fixed(s: State, call: Call, n: u32, tag: u32) -> State
    ensures { (vs : List ℕ) → machine_of result vs ≡ fixing (machine_of s vs) call n tag }
{
    match call {
        Call::InvokeInsert => coop_state::set_type(s, n, coop_state::INVOKE_INSERT, tag),
        Call::InvokeRemove => coop_state::set_type(s, n, coop_state::INVOKE_REMOVE, tag),
        Call::Freeze | Call::HasMember | Call::GetResponse => s,
    }
}

// Starts a call for task k: of operation n, with a tag.
#[tactic(auto, unfolding(crate::specs::Starts::start_of_task))]
pub fn start_of_task(s: State, k: u32, call: Call, n: u32, tag: u32) -> Stepped
    ensures { (vs : List ℕ) → reply_of result vs ≡ start_of_task (machine_of s vs) k call n tag }
{
    if coop_state::task(s, k).running || !may_start(s, call, n, tag) {
        return coop_lines::refused(s, Refusal::NotStarted);
    }
    let x = begun(call, n, tag);
    Stepped {
        out: Ok(Progress::At(x.line)),
        state: coop_state::with_task(fixed(s, call, n, tag), k, x),
    }
}
