// A reader of recordings between two lines, and what it does with a line that is only compared. `comparing` compares a line with what the
// machine prints.
#![tactic(auto)]

pub mod comparing;

ghost use Rattle.std.specs.Prelude.{◌≡◌};
ghost use Rattle.reader_state.specs.Standing.{new_reader, next_number, next_place, missing, answer_at_end, decided, after_comparing};

use recording::{ReaderPhase, Verdict};
use session::{Header, HeaderLine};
use spec::State;

// A reader between two lines: which line it takes next, the header as far as it is read, the machine's state, all zeros before the
// opening, and the number of the next line, from 1.
#[derive(Clone, Copy)]
pub struct Reader {
    pub phase: ReaderPhase,
    pub header: Header,
    pub state: State,
    pub number: u64,
}

// A reader that has read no line yet.
#[tactic(auto, unfolding(crate::specs::Standing::new_reader, session::specs::Header::empty_header))]
pub fn new_reader() -> Reader
    ensures { result ≡ new_reader }
{
    Reader {
        phase: ReaderPhase::Due(HeaderLine::Tasks),
        header: Header {
            config: state::zero_config(),
            nodes: 0,
            buckets: 0,
        },
        state: state::zero_state(),
        number: 1,
    }
}

// The number of the line after line n; it stays at the greatest.
#[tactic(auto, unfolding(crate::specs::Standing::next_number))]
pub fn next_number(n: u64) -> u64
    ensures { result ≡ next_number n }
{
    n.saturating_add(1)
}

// The place after place k of the listing; it stays at the greatest.
#[tactic(auto, unfolding(crate::specs::Standing::next_place))]
pub fn next_place(k: u32) -> u32
    ensures { result ≡ next_place k }
{
    k.saturating_add(1)
}

// The refusal where a line is missing: the input's last line is closed, or it is not.
#[tactic(auto, unfolding(crate::specs::Standing::missing))]
pub fn missing(closed: bool) -> u32
    ensures { result ≡ missing closed }
{
    if closed { 12 } else { 10 }
}

// What is answered where the input ends and a line is missing, unless the answer is given already.
#[tactic(auto, unfolding(crate::specs::Standing::answer_at_end))]
pub fn answer_at_end(phase: ReaderPhase, refusal: u32) -> Verdict
    ensures { result ≡ answer_at_end phase refusal }
{
    match phase {
        ReaderPhase::Decided(v) => v,
        ReaderPhase::Due(_)
        | ReaderPhase::Event
        | ReaderPhase::Printed(..)
        | ReaderPhase::Listed(_) => Verdict::Refusal(refusal),
    }
}

// The answer is given.
#[tactic(auto, unfolding(crate::specs::Standing::decided))]
pub fn decided(v: Verdict, r: Reader) -> Reader
    ensures { result ≡ decided v r }
{
    Reader {
        phase: ReaderPhase::Decided(v),
        ..r
    }
}

// A line is compared: where it is as printed, the reader goes on in this phase, and otherwise the line is the answer.
#[tactic(auto, unfolding(crate::specs::Standing::after_comparing))]
pub fn after_comparing(same: bool, phase: ReaderPhase, r: Reader) -> Reader
    ensures { result ≡ after_comparing same phase r }
{
    if same {
        Reader {
            phase,
            number: next_number(r.number),
            ..r
        }
    } else {
        decided(Verdict::Differs(r.number), r)
    }
}
