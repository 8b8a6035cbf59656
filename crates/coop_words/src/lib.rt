// A schedule of the cooperative bucket given as words: what an event's first word asks for, and an output's four words.
#![tactic(auto)]

ghost use Rattle.std.specs.Prelude.{◌≡◌, ℕ};
ghost use Rattle.coop_spec.specs.Numbers.{output_words};
ghost use Rattle.coop_words.specs.Events.{event_of, event_asked};

use coop_spec::{Answer, Call, Output, Progress};

// The call of the start that an event asks for, by the event's first word; None where it asks for a step.
#[tactic(auto, unfolding(crate::specs::Events::event_of, crate::specs::Events::event_asked))]
pub fn asked_by(kind: u32) -> Option<Call>
    ensures { (task n tag : ℕ) → event_of kind task n tag ≡ event_asked result task n tag }
{
    match kind {
        1 => Some(Call::InvokeInsert),
        2 => Some(Call::InvokeRemove),
        3 => Some(Call::Freeze),
        4 => Some(Call::HasMember),
        5 => Some(Call::GetResponse),
        _ => None,
    }
}

// An output's words: which of the three it is; an ended call's answer and own steps, and the version that a freeze answers.
pub fn output_words(out: Output) -> [u32; 4]
    ensures { result ≡ output_words out }
{
    match out {
        Ok(Progress::At(line)) => [0, line, 0, 0],
        Ok(Progress::End(Answer::Yes, own)) => [1, 1, u32::from(own), 0],
        Ok(Progress::End(Answer::No, own)) => [1, 2, u32::from(own), 0],
        Ok(Progress::End(Answer::Version(v), own)) => [1, 3, u32::from(own), v],
        Err(why) => [2, why.number(), 0, 0],
    }
}
