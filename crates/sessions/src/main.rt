// The sessions at the edges, played on the code: one line a step, with the number that it gives and what it answers.
// The table about the definitions, sessions 1 to 11, stands in specs/ and proofs/.
#![tactic(auto)]

mod agreed;
mod early;
mod late;
mod show;
mod stage;

use stage::Stage;
use std::io;

fn main(rt: HostRuntime) -> io::Result<()> {
    let mut stage = Stage::new(rt.stdout());
    early::play(&mut stage);
    agreed::play(&mut stage);
    late::play(&mut stage);
    stage.finish()
}
