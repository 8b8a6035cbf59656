// A script of calls that a reader can follow. A row is a letter and numbers; what came out of a call is printed after it.
//
//   o T          an opening with T tasks
//   i K N TAG    task K starts an invoke of operation N that inserts TAG
//   r K N TAG    the same, that removes TAG
//   f K          task K starts a freeze
//   m K 0 TAG    task K starts a member test of TAG
//   g K N        task K starts a get response of operation N
//   s K          a step of task K
//   = AT VALUE   word AT of memory gets this value (coop_reference::words: 404 is how many words of versions are lent, which begin at 420)
//   z AT END     the words from AT to before END become 0
//   k            memory is kept
//   p            memory is put back as it was kept
//   # ..         a comment
//   x CALLS SEED T N TAGS F W G
//                random calls (draw.rt): schedules of W calls for T tasks, N operations and so many tags; of 100 starts F are freezes, and G more get
//                responses than 15
use crate::vars::{ARGUMENT, LEFT, LETTER};
use crate::{both, draw, report};
use coop_reference::slices::{clear, copy, get, put};
use coop_reference::words::{ASKED_K, ASKED_N, VERSIONS, WHAT};
use reference_words::words::{NOWHERE, either, plus};

// A byte of a row: its numbers stand after WHAT.
fn hear(m: &mut [u32], b: u8) {
    let n = get(m, ARGUMENT);
    let at = WHAT + (n % 10) as usize;
    let letter = get(m, LETTER);
    let longer = (((get(m, at) as u64) * 10 + (b % 16) as u64) % 4294967296) as u32;
    put(m, at, either((b'0' <= b) & (b <= b'9'), longer, get(m, at)));
    put(m, ARGUMENT, plus(n, either(b == b' ', 1, 0)));
    put(m, LETTER, either(letter == 0, b as u32, letter));
}

// The call that a letter means, 7 for none.
fn what(letter: u32) -> u32 {
    match letter {
        115 => 0,
        105 => 1,
        114 => 2,
        102 => 3,
        109 => 4,
        103 => 5,
        111 => 6,
        _ => 7,
    }
}

// Rows that are no call.
fn order(m: &mut [u32], letter: u32) {
    draw::move_memory(m, letter == 107, letter == 112);
    put(
        m,
        if letter == 61 {
            get(m, ASKED_K) as usize
        } else {
            NOWHERE
        },
        get(m, ASKED_N),
    );
    clear(
        m,
        get(m, ASKED_K) as usize,
        either(letter == 122, get(m, ASKED_N), 0) as usize,
    );
    copy(m, ASKED_K, LEFT, if letter == 120 { 8 } else { 0 });
    draw::calls(m);
}

// The end of a row.
fn obey(m: &mut [u32]) {
    let letter = get(m, LETTER);
    order(m, letter);
    put(m, WHAT, what(letter));
    both::call(m);
    report::outcome(m);
    clear(m, WHAT, VERSIONS);
    clear(m, LETTER, ARGUMENT + 1);
}

pub fn take(m: &mut [u32], b: u8) {
    if b == 10 {
        return obey(m);
    }
    hear(m, b)
}
