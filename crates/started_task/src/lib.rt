// A call that starts.
#![tactic(auto)]

ghost use Rattle.std.specs.Prelude.{◌≡◌};
ghost use Rattle.spec.specs.Entries.{started};

use spec::{Call, Task};

// The record of a call that starts.
#[tactic(auto, unfolding(spec::specs::Entries::started))]
pub fn begun(call: Call, tag: u32) -> Task
    ensures { result ≡ started call tag }
{
    let number = call.number();
    match call {
        Call::Insert | Call::Remove => state::fresh_task(number, tag, 32),
        Call::Contains => state::fresh_task(number, tag, 12),
        Call::Grow | Call::Shrink => state::fresh_task(number, 0, 20),
    }
}
