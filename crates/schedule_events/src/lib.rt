// The events of a schedule given as words: what an event's first word asks for, how many events have room, and the list's answer as
// a number.
#![tactic(auto)]

ghost use Rattle.std.specs.Prelude.{◌≡◌, ℕ, ◌/◌, min};
ghost use Rattle.schedule_events.specs.Events.{event_of, event_asked, listing_number};

use spec::{Call, Listing};

// The call of the start that an event asks for, by the event's first word; None where it asks for a step.
#[tactic(auto, unfolding(crate::specs::Events::event_of, crate::specs::Events::event_asked))]
pub fn asked_by(kind: u32) -> Option<Call>
    ensures { (task tag : ℕ) → event_of kind task tag ≡ event_asked result task tag }
{
    match kind {
        1 => Some(Call::Insert),
        2 => Some(Call::Remove),
        3 => Some(Call::Contains),
        4 => Some(Call::Grow),
        5 => Some(Call::Shrink),
        _ => None,
    }
}

// The number of events that are run: so many words of events, so many for outputs.
pub fn number_of_events(events: usize, outs: usize) -> usize
    ensures { result ≡ min (events / 4) (outs / 4) }
{
    (events / 4).min(outs / 4)
}

// The list's answer as one number: of tags listed, or 256 and the refusal's number.
pub fn listing_number(l: Listing) -> u32
    ensures { result ≡ listing_number l }
{
    match l {
        Ok(n) => n,
        Err(why) => 256 + why.number(),
    }
}
