// The export of libcoop_schedule.a (include/coop.h): it calls the function of the same name in coop_schedule, and states its clauses again.
#![tactic(auto)]

ghost use Rattle.std.specs.Prelude.{◌≡◌};
ghost use Rattle.coop_schedule.specs.Encoding.{run_words, c_result, c_result_of};

// A whole schedule in one call. Gives the number of the version that the bucket then has, or 1,024 and the refusal's number.
#[unsafe(no_mangle)]
pub extern "C" fn coop_schedule_run(
    tasks: u32,
    vs: &mut [u32],
    events: &[u32],
    outs: &mut [u32],
) -> u32
    ensures { c_result result vs.new outs.new
        ≡ c_result_of (run_words tasks vs.old events.now outs.old) }
{
    coop_schedule::coop_schedule_run(tasks, vs, events, outs)
}
