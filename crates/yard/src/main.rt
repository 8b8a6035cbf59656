// yard: one of the programs by its command's word, over standard input and standard output. It ends with the program's status, 0 to 3, and with 3 where the
// argument is no such word (programs/yard.c has the command with its options, its files and its help).
#![tactic(auto)]

ghost use Rattle.std.specs.Prelude.{◌≤◌, length, IfSome};

use std::env::{Env, FillError};
use std::process::ExitCode;
use stdio::source::{Reader, Source};

// The program of a word, and its exit status.
fn run<S: Source>(from: &mut S, word: &[u8]) -> i32 {
    match word {
        b"run" => programs::yardrun(from),
        b"dump" => programs::yarddump(from),
        b"timeline" => programs::yardtimeline(from),
        b"record" => programs::yardrecord(from),
        b"verify" => programs::yardverify(from),
        b"notes" => programs::yardnotes(from),
        b"plan" => programs::yardplan(from),
        b"game" => programs::yardgame(from),
        b"mattered" => programs::yardmattered(from),
        _ => usage(),
    }
}

// Says which words there are.
fn usage() -> i32 {
    io::write_all(
        2,
        b"yard: one argument: run, dump, timeline, record, verify, notes, plan, game or mattered\n",
    );
    3
}

// An exit status as one byte.
fn byte(status: i32) -> u8 {
    match status {
        0 => 0,
        1 => 1,
        2 => 2,
        _ => 3,
    }
}

// How many bytes the argument has, if there is one and no more, and it is no longer than the room for it.
fn argument<R: Env>(rt: &R, word: &mut [u8]) -> Option<usize>
    ensures { IfSome result (λ n. n ≤ length word.new) }
{
    let mut more = [0u8; 1];
    match rt.arg(2, &mut more) {
        Err(FillError::NotPresent) => rt.arg(1, word).ok(),
        _ => None,
    }
}

fn main(rt: HostRuntime) -> ExitCode {
    let mut from = Reader::new(rt.stdin());
    let mut word = [0u8; 16];
    let status = match argument(&rt, &mut word) {
        Some(n) => run(&mut from, &word[..n]),
        None => usage(),
    };
    ExitCode::from(byte(status))
}
