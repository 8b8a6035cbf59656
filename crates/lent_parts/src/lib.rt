// The parts of what the core gives back, and the whole of them: `lent` takes no struct apart.
#![tactic(auto)]

ghost use Rattle.std.specs.Prelude.{◌≡◌};

use lines::Stepped;
use spec::{Output, State};

pub fn out_of(d: Stepped) -> Output
    ensures { result ≡ d.out }
{
    let r = d.out;
    r
}

pub fn state_of(d: Stepped) -> State
    ensures { result ≡ d.state }
{
    d.state
}

pub fn stepped(p: Output, t: State) -> Stepped
    ensures { (result.out ≡ p) × (result.state ≡ t) }
{
    Stepped { out: p, state: t }
}
