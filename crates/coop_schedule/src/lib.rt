// A whole schedule of the cooperative bucket in one call: the opening, then starts and steps given as words.
#![tactic(auto)]

ghost use Rattle.std.specs.Prelude.{◌≡◌, ◌*◌, ◌≤◌, length};
ghost use Rattle.spec.specs.Lists.{concat_map};
ghost use Rattle.spec.specs.Words.{overwrite};
ghost use Rattle.coop_spec.specs.Numbers.{output_words};
ghost use Rattle.coop_spec.specs.Machine.{machine_of};
ghost use Rattle.coop_spec.specs.Schedule.{event, run, schedule};
ghost use Rattle.coop_spec.specs.declared.Refusal.TheVariants.{Spoilt};
ghost use Rattle.coop_spec.specs.Linearizable.{Linearizable, AtMostOnce, Never};
ghost use Rattle.coop_lines.specs.Reply.{reply_of};
ghost use Rattle.coop_words.specs.Events.{event_of, events_of};
ghost use Rattle.coop_schedule.specs.Encoding.{decoded, run_words, result_of, c_result, c_result_of};

use coop_lines::Stepped;
use coop_spec::State;

// What a run gives: the opening's refusal, or 0; the number of events run; the state.
#[derive(Clone, Copy)]
pub struct Outcome {
    pub refusal: u32,
    pub ran: usize,
    pub state: State,
}

// Runs one event, given by its words.
#[tactic(auto, unfolding(coop_spec::specs::Schedule::event, coop_words::specs::Events::event_asked))]
fn run_event(s: State, kind: u32, task: u32, n: u32, tag: u32, vs: &mut [u32]) -> Stepped
    ensures { reply_of result vs.new ≡ event (machine_of s vs.old) (event_of kind task n tag) }
{
    match coop_words::asked_by(kind) {
        Some(call) => coop::start(s, task, call, n, tag, vs),
        None => coop::step(s, task, vs),
    }
}

// Runs the first n events and writes their outputs.
fn run_events(s: State, n: usize, events: &[u32], vs: &mut [u32], outs: &mut [u32]) -> State
    requires { (4 * n ≤ length events.now) × (4 * n ≤ length outs.old) }
    ensures { (machine_of result vs.new ≡ (run (machine_of s vs.old) (events_of n events.now)).machine)
        × (outs.new ≡ overwrite outs.old 0 (concat_map output_words
        (run (machine_of s vs.old) (events_of n events.now)).outs)) }
{
    let mut t = s;
    for i in 0..n {
        let at = 4 * i;
        let r = run_event(
            t,
            events[at],
            events[at + 1],
            events[at + 2],
            events[at + 3],
            vs,
        );
        schedule_words::write_words(outs, i, coop_words::output_words(r.out));
        let after = r.state;
        t = after;
    }
    t
}

// Opens, and runs the events that have room for their outputs.
pub fn run(t: u32, vs: &mut [u32], events: &[u32], outs: &mut [u32]) -> Outcome
    ensures words { result_of result vs.new outs.new ≡ run_words t vs.old events.now outs.old }
    ensures linearizable { result.refusal ≡ 0 → Linearizable t vs.old (decoded events.now outs.old) }
    ensures once { result.refusal ≡ 0 → AtMostOnce t vs.old (decoded events.now outs.old) }
    ensures never_8 { result.refusal ≡ 0 → Never Spoilt (schedule t vs.old (decoded events.now outs.old)).outs }
{
    let o = coop_opening::open(t, vs);
    let s = o.state;
    if let Some(why) = o.refusal {
        return Outcome {
            refusal: why.number(),
            ran: 0,
            state: s,
        };
    }
    let ran = schedule_events::number_of_events(events.len(), outs.len());
    let state = run_events(s, ran, events, vs, outs);
    Outcome {
        refusal: 0,
        ran,
        state,
    }
}

// The same for C. Gives the number of the version that the bucket then has, or 1,024 and the refusal's number.
pub fn coop_schedule_run(tasks: u32, vs: &mut [u32], events: &[u32], outs: &mut [u32]) -> u32
    ensures { c_result result vs.new outs.new
        ≡ c_result_of (run_words tasks vs.old events.now outs.old) }
{
    let o = run(tasks, vs, events, outs);
    if o.refusal != 0 {
        1024 + o.refusal
    } else {
        o.state.node
    }
}
