// The lines of the four calls of Figure 6, INVOKE, FREEZE, HASMEMBER and GETRESPONSE: a function for each line. `invoke` and
// `has_member` have one that goes by the task's line.
#![tactic(auto)]

pub mod has_member;
pub mod invoke;

ghost use Rattle.std.specs.Prelude.{◌≡◌, List, ℕ};
ghost use Rattle.coop_spec.specs.Machine.{machine_of};
ghost use Rattle.coop_spec.specs.Entries.{step_running};
ghost use Rattle.coop_lines.specs.Reply.{reply_of};

use coop_lines::Stepped;
use coop_spec::{State, Task};

// FREEZE. b.flag <- true, then DOFREEZE(b) (line 110)
pub fn line109(s: State, k: u32, c: Task) -> Stepped
    requires { c.line ≡ 109 }
    ensures { (vs : List ℕ) → reply_of result vs ≡ step_running (machine_of s vs) k c }
{
    coop_lines::go_line(coop_state::with_flag(s), k, c, 120)
}

// GETRESPONSE. return op.resp (line 118)
pub fn line117(s: State, k: u32, c: Task) -> Stepped
    requires { c.line ≡ 117 }
    ensures { (vs : List ℕ) → reply_of result vs ≡ step_running (machine_of s vs) k c }
{
    let resp = coop_state::operation(s, c.op).resp;
    coop_lines::end(s, k, c, coop_lines::yes_no(resp))
}
