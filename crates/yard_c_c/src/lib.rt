// The exports of libyard_c.a (include/yard.h): each calls the function of the same name in yard_c, and states its clauses again.
#![tactic(auto)]

ghost use Rattle.std.specs.Prelude.{◌≡◌, []};
ghost use Rattle.spec.specs.declared.Call.TheVariants.{Insert, Remove, Contains, Grow, Shrink};
ghost use Rattle.schedule.specs.Encoding.{c_config};
ghost use Rattle.c_calls.specs.Calls.{called, c_open, c_start, c_step, c_turn, c_list, c_show};
ghost use Rattle.c_calls.specs.Runs.{c_turns};

// Opens the set on both pools and writes the state's words.
#[unsafe(no_mangle)]
pub extern "C" fn yard_open(
    tasks: u32,
    version: u32,
    withdrawn: u32,
    w: &mut [u32],
    ns: &mut [u32],
    bs: &mut [u32],
) -> u32
    ensures { called result w.new ns.new bs.new []
        ≡ c_open (c_config tasks version withdrawn) w.old ns.old bs.old }
{
    yard_c::yard_open(tasks, version, withdrawn, w, ns, bs)
}

// Starts an insert for a task; and so on: a function for each call, so that there is no bad call.
#[unsafe(no_mangle)]
pub extern "C" fn yard_start_insert(
    w: &mut [u32],
    k: u32,
    tag: u32,
    ns: &[u32],
    bs: &[u32],
    out: &mut [u32],
) -> u32
    ensures { called result w.new ns.now bs.now out.new
        ≡ c_start Insert w.old k tag ns.now bs.now out.old }
{
    yard_c::yard_start_insert(w, k, tag, ns, bs, out)
}

#[unsafe(no_mangle)]
pub extern "C" fn yard_start_remove(
    w: &mut [u32],
    k: u32,
    tag: u32,
    ns: &[u32],
    bs: &[u32],
    out: &mut [u32],
) -> u32
    ensures { called result w.new ns.now bs.now out.new
        ≡ c_start Remove w.old k tag ns.now bs.now out.old }
{
    yard_c::yard_start_remove(w, k, tag, ns, bs, out)
}

#[unsafe(no_mangle)]
pub extern "C" fn yard_start_contains(
    w: &mut [u32],
    k: u32,
    tag: u32,
    ns: &[u32],
    bs: &[u32],
    out: &mut [u32],
) -> u32
    ensures { called result w.new ns.now bs.now out.new
        ≡ c_start Contains w.old k tag ns.now bs.now out.old }
{
    yard_c::yard_start_contains(w, k, tag, ns, bs, out)
}

#[unsafe(no_mangle)]
pub extern "C" fn yard_start_grow(
    w: &mut [u32],
    k: u32,
    ns: &[u32],
    bs: &[u32],
    out: &mut [u32],
) -> u32
    ensures { called result w.new ns.now bs.now out.new
        ≡ c_start Grow w.old k 0 ns.now bs.now out.old }
{
    yard_c::yard_start_grow(w, k, ns, bs, out)
}

#[unsafe(no_mangle)]
pub extern "C" fn yard_start_shrink(
    w: &mut [u32],
    k: u32,
    ns: &[u32],
    bs: &[u32],
    out: &mut [u32],
) -> u32
    ensures { called result w.new ns.now bs.now out.new
        ≡ c_start Shrink w.old k 0 ns.now bs.now out.old }
{
    yard_c::yard_start_shrink(w, k, ns, bs, out)
}

// Steps a task by one line.
#[unsafe(no_mangle)]
pub extern "C" fn yard_step(
    w: &mut [u32],
    k: u32,
    ns: &mut [u32],
    bs: &mut [u32],
    out: &mut [u32],
) -> u32
    ensures { called result w.new ns.new bs.new out.new
        ≡ c_step w.old k ns.old bs.old out.old }
{
    yard_c::yard_step(w, k, ns, bs, out)
}

// One turn of the dispatcher, as `turn` of dispatch has it. Only the words that change are written.
#[unsafe(no_mangle)]
pub extern "C" fn yard_turn(w: &mut [u32], ns: &mut [u32], bs: &mut [u32], out: &mut [u32]) -> u32
    ensures { called result w.new ns.new bs.new out.new
        ≡ c_turn w.old ns.old bs.old out.old }
{
    yard_c::yard_turn(w, ns, bs, out)
}

// Writes the tags in the set, ascending.
#[unsafe(no_mangle)]
pub extern "C" fn yard_list(w: &[u32], ns: &[u32], bs: &[u32], out: &mut [u32]) -> u32
    ensures { called result w.now ns.now bs.now out.new
        ≡ c_list w.now ns.now bs.now out.old }
{
    yard_c::yard_list(w, ns, bs, out)
}

// How many tags bucket k has, and where the first of them stands.
#[unsafe(no_mangle)]
pub extern "C" fn yard_show(w: &[u32], k: u32, ns: &[u32], bs: &[u32], out: &mut [u32]) -> u32
    ensures { called result w.now ns.now bs.now out.new
        ≡ c_show w.now k ns.now bs.now out.old }
{
    yard_c::yard_show(w, k, ns, bs, out)
}

// Takes the turns that have room for their words, up to the first that finds nothing to run. Memory is looked through once, before the first of them.
#[unsafe(no_mangle)]
pub extern "C" fn yard_turns(w: &mut [u32], ns: &mut [u32], bs: &mut [u32], outs: &mut [u32]) -> u32
    ensures { called result w.new ns.new bs.new outs.new
        ≡ c_turns w.old ns.old bs.old outs.old }
{
    yard_c::yard_turns(w, ns, bs, outs)
}
