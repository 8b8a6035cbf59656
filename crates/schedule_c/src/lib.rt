// Many events in one call for C, on an open set and as a whole schedule, in an archive of its own: there nothing but a run of events calls a step, so
// that the compiler makes one function of both. include/yard.h has the layout and the numbers, `Runs` of yard_c and specs/Whole what the calls give
// and leave.
#![tactic(auto)]

ghost use Rattle.std.specs.Prelude.{◌≡◌};
ghost use Rattle.schedule.specs.Encoding.{c_config, run_words};
ghost use Rattle.c_calls.specs.Calls.{called};
ghost use Rattle.c_calls.specs.Runs.{c_run};
ghost use Rattle.schedule_c.specs.Whole.{c_result, c_result_of};

// 256 and the number of refusal 8.
const SPOILT: u32 = 264;

// Runs the events that have room for their outputs. Memory is looked through once, before the first of them, and every event keeps it sound.
pub fn yard_run(
    w: &mut [u32],
    ns: &mut [u32],
    bs: &mut [u32],
    events: &[u32],
    outs: &mut [u32],
) -> u32
    ensures { called result w.new ns.new bs.new outs.new
        ≡ c_run w.old ns.old bs.old events.now outs.old }
{
    if !yard_words::state_fits(w) {
        return SPOILT;
    }
    let s = yard_words::state_of_words(w);
    if !soundness::sound(s, ns, bs) {
        return SPOILT;
    }
    let n = schedule_events::number_of_events(events.len(), outs.len());
    let t = schedule::run_events(s, n, events, ns, bs, outs);
    yard_words::put_state(w, t);
    0
}

// Opens, runs the events that have room for their outputs, and lists. Gives the number of tags listed, or 256 and the refusal's number.
pub fn schedule_run(
    tasks: u32,
    version: u32,
    withdrawn: u32,
    ns: &mut [u32],
    bs: &mut [u32],
    events: &[u32],
    outs: &mut [u32],
    tags: &mut [u32],
) -> u32
    ensures { c_result result ns.new bs.new outs.new tags.new
        ≡ c_result_of (run_words (c_config tasks version withdrawn) ns.old bs.old
        events.now outs.old tags.old) }
{
    let g = schedule::config(tasks, version, withdrawn);
    let o = schedule::run(g, ns, bs, events, outs, tags);
    let l = o.listing;
    schedule_events::listing_number(l)
}
