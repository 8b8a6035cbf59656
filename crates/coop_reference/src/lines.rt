// Figure 6 as a table. A row: a line; the first and the last of the calls that come there; "o" and "p" where it goes through o and through op of
// HELPFINISH, "k" where o is needed later, "n" for "o ← b.node"; what it tests, or "x" for a line that "belongs to the line before", "h" if it calls
// HELPFINISH; the line after it where that holds, and where not. 000 ends the call and 001 HELPFINISH; where a line calls HELPFINISH the last number is the
// line after that has ended.
// Tests: 1 "b.node.op ≠ ⊥ ∧ op.prio ≠ ∞", 2 "b.flag", 3 "o.op = nil" (in a CAS too), 4 op.prio ≠ ∞, 5 "b.node.op ≠ ⊥", 6 "op ≠ nil ∧ op ≠ ⊥" of
// o.op, 7 whether an invoke has called DOFREEZE, 0 nothing.
use super::slices::get;
use crate::words::{BACK, CALL, FLAG, LINE, O, OP, mine, node, operation, version};
use reference_words::words::letter;

pub const CALLS: usize = 4;

pub const THROUGH: usize = 7;

pub const TEST: usize = 10;

const SO: usize = 12;

const ELSE: usize = 16;

pub fn entry(line: u32, column: usize) -> u8 {
    let at = (line as usize) * 20 + column % 20;
    if at < 95 * 20 {
        return b'.';
    }
    letter(
        b"095 12 -- 1 096 107
096 12 -- 2 097 099
097 12 -- x 120 ...
098 12 -- x 107 ...
099 12 n- 0 100 ...
100 12 o- 3 101 106
101 12 k- 4 102 095
102 12 o- 3 103 095
103 12 -- h 129 104
104 12 -- x 000 ...
105 .. -- . ... ...
106 12 -- h 129 095
107 12 -- 0 000 ...
108 .. -- . ... ...
109 33 -- 0 110 ...
110 33 -- x 120 ...
111 .. -- . ... ...
112 44 n- 0 113 ...
113 44 o- 0 000 ...
114 .. -- . ... ...
115 .. -- . ... ...
116 .. -- . ... ...
117 55 -- 0 000 ...
118 .. -- . ... ...
119 .. -- . ... ...
120 13 -- 5 121 127
121 13 n- 0 122 ...
122 13 o- 3 123 126
123 13 o- 3 124 120
124 13 -- x 127 ...
125 .. -- . ... ...
126 13 -- h 129 120
127 13 -- 7 098 000
128 .. -- . ... ...
129 13 n- 0 130 ...
130 13 o- 6 138 001
131 .. -- . ... ...
132 .. -- . ... ...
133 .. -- . ... ...
134 .. -- . ... ...
135 .. -- . ... ...
136 .. -- . ... ...
137 .. -- . ... ...
138 13 op 0 139 ...
139 13 kp 0 140 ...
140 13 op 0 001 ...
",
        at - 95 * 20,
    )
}

// The number of three digits in a row from a column on.
fn number(line: u32, column: usize) -> u32 {
    let c = column % 17;
    let a = (entry(line, c) % 16) as u32;
    let b = (entry(line, c + 1) % 16) as u32;
    a * 100 + b * 10 + (entry(line, c + 2) % 16) as u32
}

fn holds(w: &[u32], test: u8) -> bool {
    let open = version(w, node(w), 0) != 1;
    let waits = operation(w, mine(w, OP), 3) == 0;
    let o_op = version(w, mine(w, O), 0);
    match test {
        b'1' => open & waits,
        b'2' => get(w, FLAG) != 0,
        b'3' => o_op == 0,
        b'4' => waits,
        b'5' => open,
        b'6' => 1 < o_op,
        b'7' => mine(w, CALL) < 3,
        _ => true,
    }
}

// The line of the figure that follows the task's, a step or not.
pub fn figure_line(w: &[u32]) -> u32 {
    let line = mine(w, LINE);
    let to = number(
        line,
        if holds(w, entry(line, TEST)) {
            SO
        } else {
            ELSE
        },
    );
    if to == 1 {
        return number(mine(w, BACK), ELSE);
    }
    to
}

// The step that follows: "the rest belongs to the line before". 0 where the call ends.
pub fn step_after(to: u32) -> u32 {
    if b'9' < entry(to, TEST) {
        return number(to, SO);
    }
    to
}

// Whether a call does not come to a line. One past 5 comes to none; a row's dots would read as 14.
pub fn is_strange(call: u32, line: u32) -> bool {
    let first = (entry(line, CALLS) % 16) as u32;
    let last = (entry(line, CALLS + 1) % 16) as u32;
    (call < first) | (last < call) | (5 < call)
}
