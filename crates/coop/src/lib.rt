// The entries start and step of the cooperative bucket, with the state by value and the words of its versions lent.
#![tactic(auto)]

ghost use Rattle.std.specs.Prelude.{◌≡◌};
ghost use Rattle.coop_spec.specs.Machine.{machine_of};
ghost use Rattle.coop_spec.specs.Entries.{start, step};
ghost use Rattle.coop_lines.specs.Reply.{reply_of};

use coop_lines::Stepped;
use coop_spec::{Call, Refusal, State};

// Starts a call for task k: of operation n, with a tag.
pub fn start(s: State, k: u32, call: Call, n: u32, tag: u32, vs: &[u32]) -> Stepped
    ensures { reply_of result vs.now ≡ start (machine_of s vs.now) k call n tag }
{
    if !coop_sound::sound(s, vs) {
        return coop_lines::refused(s, Refusal::Spoilt);
    }
    if s.tasks <= k {
        return coop_lines::refused(s, Refusal::NoTask);
    }
    coop_starts::start_of_task(s, k, call, n, tag)
}

// Steps task k by one line: by the procedure that has the line.
pub fn step(s: State, k: u32, vs: &mut [u32]) -> Stepped
    ensures { reply_of result vs.new ≡ step (machine_of s vs.old) k }
{
    if !coop_sound::sound(s, vs) {
        return coop_lines::refused(s, Refusal::Spoilt);
    }
    if s.tasks <= k {
        return coop_lines::refused(s, Refusal::NoTask);
    }
    let c = coop_state::task(s, k);
    let running = c.running;
    if !running {
        return coop_lines::refused(s, Refusal::Idle);
    }
    let line = c.line;
    if line < 109 {
        return coop_calls::invoke::step(s, k, c, vs);
    }
    if line < 112 {
        return coop_calls::line109(s, k, c);
    }
    if line < 117 {
        return coop_calls::has_member::step(s, k, c, vs);
    }
    if line < 120 {
        return coop_calls::line117(s, k, c);
    }
    if line < 129 {
        return coop_helpers::do_freeze::step(s, k, c, vs);
    }
    coop_helpers::help_finish::step(s, k, c, vs)
}
