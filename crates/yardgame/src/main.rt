// yardgame: over standard input a session whose last line is `game=N`; over standard output who wins the game (game_text::program).
#![tactic(auto)]

use stdio::source::Reader;

fn main(rt: HostRuntime) {
    let mut from = Reader::new(rt.stdin());
    game_text::program::yardgame(&mut from);
}
