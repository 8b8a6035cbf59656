// The exports of libcoop_c.a (include/coop.h): each calls the function of the same name in coop_c, and states its clauses again.
#![tactic(auto)]

ghost use Rattle.std.specs.Prelude.{◌≡◌, []};
ghost use Rattle.coop_spec.specs.declared.Call.TheVariants.{InvokeInsert, InvokeRemove, Freeze, HasMember, GetResponse};
ghost use Rattle.coop_c.specs.Calls.{called, c_open, c_start, c_step, c_show};

// Opens the bucket on a pool of versions and writes the state's words.
#[unsafe(no_mangle)]
pub extern "C" fn coop_open(tasks: u32, w: &mut [u32], vs: &mut [u32]) -> u32
    ensures { called result w.new vs.new [] ≡ c_open tasks w.old vs.old }
{
    coop_c::coop_open(tasks, w, vs)
}

// Starts an invoke of an operation that inserts a tag; and so on: a function for each call, so that there is no bad call.
#[unsafe(no_mangle)]
pub extern "C" fn coop_start_insert(
    w: &mut [u32],
    k: u32,
    op: u32,
    tag: u32,
    vs: &[u32],
    out: &mut [u32],
) -> u32
    ensures { called result w.new vs.now out.new
        ≡ c_start InvokeInsert w.old k op tag vs.now out.old }
{
    coop_c::coop_start_insert(w, k, op, tag, vs, out)
}

#[unsafe(no_mangle)]
pub extern "C" fn coop_start_remove(
    w: &mut [u32],
    k: u32,
    op: u32,
    tag: u32,
    vs: &[u32],
    out: &mut [u32],
) -> u32
    ensures { called result w.new vs.now out.new
        ≡ c_start InvokeRemove w.old k op tag vs.now out.old }
{
    coop_c::coop_start_remove(w, k, op, tag, vs, out)
}

#[unsafe(no_mangle)]
pub extern "C" fn coop_start_freeze(w: &mut [u32], k: u32, vs: &[u32], out: &mut [u32]) -> u32
    ensures { called result w.new vs.now out.new
        ≡ c_start Freeze w.old k 0 0 vs.now out.old }
{
    coop_c::coop_start_freeze(w, k, vs, out)
}

#[unsafe(no_mangle)]
pub extern "C" fn coop_start_member(
    w: &mut [u32],
    k: u32,
    tag: u32,
    vs: &[u32],
    out: &mut [u32],
) -> u32
    ensures { called result w.new vs.now out.new
        ≡ c_start HasMember w.old k 0 tag vs.now out.old }
{
    coop_c::coop_start_member(w, k, tag, vs, out)
}

#[unsafe(no_mangle)]
pub extern "C" fn coop_start_response(
    w: &mut [u32],
    k: u32,
    op: u32,
    vs: &[u32],
    out: &mut [u32],
) -> u32
    ensures { called result w.new vs.now out.new
        ≡ c_start GetResponse w.old k op 0 vs.now out.old }
{
    coop_c::coop_start_response(w, k, op, vs, out)
}

// Steps a task by one line.
#[unsafe(no_mangle)]
pub extern "C" fn coop_step(w: &mut [u32], k: u32, vs: &mut [u32], out: &mut [u32]) -> u32
    ensures { called result w.new vs.new out.new
        ≡ c_step w.old k vs.old out.old }
{
    coop_c::coop_step(w, k, vs, out)
}

// How many tags version k has, and where the first of them stands.
#[unsafe(no_mangle)]
pub extern "C" fn coop_show(w: &[u32], k: u32, vs: &[u32], out: &mut [u32]) -> u32
    ensures { called result w.now vs.now out.new
        ≡ c_show w.now k vs.now out.old }
{
    coop_c::coop_show(w, k, vs, out)
}
