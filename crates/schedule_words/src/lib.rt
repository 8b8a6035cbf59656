// The outputs of a schedule given as words: an output's four words, and where they are written.
#![tactic(auto)]

ghost use Rattle.std.specs.Prelude.{◌≡◌, ◌*◌, ◌+◌, ◌≤◌, length};
ghost use Rattle.spec.specs.Numbers.{answer_number, occupancy_number, output_words};
ghost use Rattle.spec.specs.Words.{overwrite};

use spec::{Answer, Output, Progress};

// (A table here and no method of Answer: the numbers are those of these words, which no crate below writes.)
pub fn answer_number(a: Answer) -> u32
    ensures { result ≡ answer_number a }
{
    match a {
        Answer::Yes => 1,
        Answer::No => 2,
        Answer::Full => 3,
        Answer::Done => 4,
        Answer::Lost => 5,
        Answer::Limit => 6,
    }
}

fn occupancy_number(o: Option<u32>) -> u32
    ensures { result ≡ occupancy_number o }
{
    o.unwrap_or(0)
}

fn output_words(out: Output) -> [u32; 4]
    ensures { result ≡ output_words out }
{
    match out {
        Ok(Progress::At(line)) => [0, line, 0, 0],
        Ok(Progress::End(a, own, full)) => [
            1,
            answer_number(a),
            u32::from(own),
            occupancy_number(full),
        ],
        Err(why) => [2, why.number(), 0, 0],
    }
}

// Writes the four words of any output, the output number i.
#[tactic(auto, using(crate::proofs::Laws::over_part))]
pub fn write_words(outs: &mut [u32], i: usize, w: [u32; 4])
    requires { 4 * i + 4 ≤ length outs.old }
    ensures { outs.new ≡ overwrite outs.old (4 * i) w }
{
    let at = 4 * i;
    outs[at..at + 4].copy_from_slice(&w)
}

pub fn write_output(outs: &mut [u32], i: usize, out: Output)
    requires { 4 * i + 4 ≤ length outs.old }
    ensures { outs.new ≡ overwrite outs.old (4 * i) (output_words out) }
{
    write_words(outs, i, output_words(out))
}
