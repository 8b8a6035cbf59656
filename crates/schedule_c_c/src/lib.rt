// The exports of libschedule_c.a (include/yard.h): each calls the function of the same name in schedule_c, and states its clauses again.
#![tactic(auto)]

ghost use Rattle.std.specs.Prelude.{◌≡◌};
ghost use Rattle.schedule.specs.Encoding.{c_config, run_words};
ghost use Rattle.c_calls.specs.Calls.{called};
ghost use Rattle.c_calls.specs.Runs.{c_run};
ghost use Rattle.schedule_c.specs.Whole.{c_result, c_result_of};

// Runs the events that have room for their outputs. Memory is looked through once, before the first of them, and every event keeps it sound.
#[unsafe(no_mangle)]
pub extern "C" fn yard_run(
    w: &mut [u32],
    ns: &mut [u32],
    bs: &mut [u32],
    events: &[u32],
    outs: &mut [u32],
) -> u32
    ensures { called result w.new ns.new bs.new outs.new
        ≡ c_run w.old ns.old bs.old events.now outs.old }
{
    schedule_c::yard_run(w, ns, bs, events, outs)
}

// Opens, runs the events that have room for their outputs, and lists. Gives the number of tags listed, or 256 and the refusal's number.
#[unsafe(no_mangle)]
pub extern "C" fn schedule_run(
    tasks: u32,
    version: u32,
    withdrawn: u32,
    ns: &mut [u32],
    bs: &mut [u32],
    events: &[u32],
    outs: &mut [u32],
    tags: &mut [u32],
) -> u32
    ensures { c_result result ns.new bs.new outs.new tags.new
        ≡ c_result_of (run_words (c_config tasks version withdrawn) ns.old bs.old
        events.now outs.old tags.old) }
{
    schedule_c::schedule_run(tasks, version, withdrawn, ns, bs, events, outs, tags)
}
