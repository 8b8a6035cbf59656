// A whole schedule in one call: the opening, then starts and steps given as words, then the list.
#![tactic(auto)]

ghost use Rattle.std.specs.Prelude.{◌≡◌, true, ◌*◌, ◌%◌, ◌≤◌, length};
ghost use Rattle.spec.specs.Lists.{concat_map};
ghost use Rattle.spec.specs.Numbers.{output_words};
ghost use Rattle.spec.specs.Machine.{Machine, machine_of, task_of};
ghost use Rattle.spec.specs.Words.{overwrite};
ghost use Rattle.spec.specs.Sound.{sound};
ghost use Rattle.spec.specs.Schedule.{event, run, schedule};
ghost use Rattle.spec.specs.Linearizable.{Linearizable, NoEight};
ghost use Rattle.spec.specs.ContainsSteps.{ContainsExact};
ghost use Rattle.pace.specs.StepCounts.{none_begun, StepsWithin};
ghost use Rattle.soundness.specs.Told.{told, checked_of};
ghost use Rattle.lines.specs.Reply.{moved_reply};
ghost use Rattle.schedule_events.specs.Events.{event_of, events_of};
ghost use Rattle.schedule.specs.Encoding.{c_config, decoded, run_words, result_of};

use lines::Moved;
use spec::{Config, Listing, State, Task};

// What a run gives: the opening's refusal, or 0; the number of events run; the state; the list's answer, in whose place the refusal
// of an opening stands.
#[derive(Clone, Copy)]
pub struct Outcome {
    pub refusal: u32,
    pub ran: usize,
    pub state: State,
    pub listing: Listing,
}

// What an opening is given, by three words.
pub fn config(tasks: u32, version: u32, withdrawn: u32) -> Config
    ensures { result ≡ c_config tasks version withdrawn }
{
    let g = state::with_version(state::config(tasks), version);
    state::with_zero_withdrawn(g, withdrawn != 0)
}

// What a check of sound memory gives for task k, where c is record k mod 8: that record, or an idle one where there is no task k. (known_memory has the same
// for memory that may be spoilt; here it is known, and a schedule stands on no caller's flag.)
pub fn known_sound(c: Task, k: u32) -> Option<Task>
    ensures { (y : Machine) → length y.state.task ≡ 8 → c ≡ task_of y (k % 8) → result ≡ told true (task_of y k) }
{
    let task = if k < 8 { c } else { state::idle() };
    Some(task)
}

// Runs one event, given by its words, with what a check of memory gives; gives what it changes of the state.
#[tactic(auto, unfolding(spec::specs::Schedule::event, schedule_events::specs::Events::event_asked))]
fn run_event(
    s: State,
    d: Option<Task>,
    kind: u32,
    task: u32,
    tag: u32,
    ns: &mut [u32],
    bs: &mut [u32],
) -> Moved
    requires { d ≡ checked_of (machine_of s ns.old bs.old) task }
    ensures { moved_reply s task result ns.new bs.new ≡ event (machine_of s ns.old bs.old)
        (event_of kind task tag) }
{
    match schedule_events::asked_by(kind) {
        Some(call) => checked_start::start(s, d, task, call, tag),
        None => checked_step::step(s, d, task, ns, bs),
    }
}

// Runs the first n events and writes their outputs. The state is changed in place, as `settle` of lines has it. Memory is sound before
// the first event, and every event keeps it so: it is not scanned in between. A record is read from the state in place, which spares a copy
// of all of them.
pub fn run_events(
    s: State,
    n: usize,
    events: &[u32],
    ns: &mut [u32],
    bs: &mut [u32],
    outs: &mut [u32],
) -> State
    requires { (4 * n ≤ length events.now) × (4 * n ≤ length outs.old) × (sound (machine_of s ns.old bs.old) ≡ true) }
    ensures { (machine_of result ns.new bs.new ≡ (run (machine_of s ns.old bs.old)
        (events_of n events.now)).machine)
        × (outs.new ≡ overwrite outs.old 0 (concat_map output_words
        (run (machine_of s ns.old bs.old) (events_of n events.now)).outs)) }
{
    let mut t = s;
    for i in 0..n {
        let at = 4 * i;
        let k = events[at + 1];
        let c = t.task[(k % 8) as usize];
        let d = known_sound(c, k);
        let m = run_event(t, d, events[at], k, events[at + 2], ns, bs);
        schedule_words::write_output(outs, i, m.out);
        if lines::changes(m.out, k) {
            t.head = m.head;
            t.last_node = m.last_node;
            t.last_bucket = m.last_bucket;
            let x = m.task;
            t.task[k as usize] = x;
        }
    }
    t
}

// Opens, runs the events that have room for their outputs, and lists.
pub fn run(
    g: Config,
    ns: &mut [u32],
    bs: &mut [u32],
    events: &[u32],
    outs: &mut [u32],
    tags: &mut [u32],
) -> Outcome
    ensures words { result_of result ns.new bs.new outs.new tags.new
        ≡ run_words g ns.old bs.old events.now outs.old tags.old }
    ensures linearizable { result.refusal ≡ 0 → Linearizable g ns.old bs.old (decoded events.now outs.old) }
    ensures exact { result.refusal ≡ 0 → ContainsExact (decoded events.now outs.old)
        (schedule g ns.old bs.old (decoded events.now outs.old)).outs }
    ensures within { result.refusal ≡ 0 → StepsWithin none_begun (decoded events.now outs.old)
        (schedule g ns.old bs.old (decoded events.now outs.old)).outs }
    ensures never_8 { result.refusal ≡ 0
        → NoEight (schedule g ns.old bs.old (decoded events.now outs.old)).outs }
{
    let o = opening::open(g, ns, bs);
    let s = o.state;
    if let Some(why) = o.refusal {
        return Outcome {
            refusal: why.number(),
            ran: 0,
            state: s,
            listing: Err(why),
        };
    }
    let ran = schedule_events::number_of_events(events.len(), outs.len());
    let state = run_events(s, ran, events, ns, bs, outs);
    Outcome {
        refusal: 0,
        ran,
        state,
        listing: queries::list(state, ns, bs, tags),
    }
}
