// A line that is not closed yet: its bytes, at most 41 of them, since a line of more than 40 is outside the grammar however it goes
// on.
#![tactic(auto)]

ghost use Rattle.std.specs.Prelude.{◌≡◌, ◌≤◌, eqb, length};
ghost use Rattle.session.specs.Keys.{newline};
ghost use Rattle.partial_line.specs.PartialLines.{empty_line, line_bytes, pushed};
ghost use Rattle.partial_line.specs.Filling.{Fills};

// The bytes of a line that is not closed yet, and how many they are.
#[derive(Clone, Copy)]
pub struct PartialLine {
    pub bytes: [u8; 41],
    pub len: usize,
}

impl PartialLine {
    // The line's bytes so far.
    #[tactic(auto, using(crate::proofs::Laws::all_kept))]
    pub fn as_bytes(&self) -> &[u8]
        ensures bytes { result.now ≡ line_bytes self.now }
        ensures most { length result.now ≤ 41 }
    {
        &self.bytes[..self.len.min(41)]
    }
}

// Whether the byte closes a line.
fn closes(x: u8) -> bool
    ensures { result ≡ eqb x newline }
{
    x == b'\n'
}

// A line of no bytes.
#[tactic(auto, unfolding(crate::specs::PartialLines::empty_line))]
pub fn empty_line() -> PartialLine
    ensures { result ≡ empty_line }
{
    PartialLine {
        bytes: [0; 41],
        len: 0,
    }
}

// One byte more; a line of 41 bytes stays as it is.
#[tactic(auto, using(crate::proofs::Laws::push_in, crate::proofs::Laws::push_full))]
fn push(mut h: PartialLine, x: u8) -> PartialLine
    ensures { result ≡ pushed h x }
{
    if h.len < 41 {
        h.bytes[h.len] = x;
        h.len += 1;
    }
    h
}

// A line as far as some bytes bring it: how many of them it takes, with the one that closes it, and whether one does.
#[derive(Clone, Copy)]
pub struct Filled {
    pub line: PartialLine,
    pub used: usize,
    pub closed: bool,
}

// The bytes of an input up to the one that closes the line, or to the line's 41st byte, or all of them.
pub fn fill(h: PartialLine, input: &[u8]) -> Filled
    ensures { Fills h input.now result }
{
    let mut line = h;
    for (i, x) in input.iter().enumerate() {
        if 40 < line.len {
            return Filled {
                line,
                used: i,
                closed: false,
            };
        }
        if closes(*x) {
            return Filled {
                line,
                used: i + 1,
                closed: true,
            };
        }
        line = push(line, *x);
    }
    Filled {
        line,
        used: input.len(),
        closed: false,
    }
}

// A line of 41 bytes, one more than the grammar allows: a last line that is not closed is taken for it. The `ensures` gives the length, which lending
// the array needs.
pub fn too_long() -> [u8; 41]
    ensures { 41 ≡ length result }
{
    [0; 41]
}
