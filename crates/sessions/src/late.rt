// Sessions 11 and 12: batches, and slots.
ghost use Rattle.std.specs.Prelude.{◌<◌};

use crate::stage::{Stage, word};
use views::{View, sets};

// Two batches of three from five words: the second has two, and leaves the third place.
fn batches(stage: &mut Stage) {
    let mut out = [0; 3];
    for _ in 0..2 {
        stage.batch(0, &mut out);
        stage.words(out);
    }
}

fn eleventh(stage: &mut Stage) {
    stage.session(11);
    stage.fresh(0);
    for i in 1..=5 {
        stage.send(word(i));
    }
    for _ in 0..5 {
        stage.pass_out();
    }
    stage.batch(0, &mut []);
    batches(stage);
}

// View 1 of end-point 0 and q, with this start number for 0.
fn pair(q: u8, start: u32) -> View
    requires { q < 8 }
{
    let mut starts = [0; 8];
    starts[0] = start;
    starts[usize::from(q)] = 1;
    View {
        starts,
        id: 1,
        set: sets::joined(1, sets::only(q)),
    }
}

// Three live views take the three free slots, and a fourth has none. Start change 2 makes the three spent, and it has one.
fn twelfth(stage: &mut Stage) {
    stage.session(12);
    stage.fresh(0);
    for q in 1..=3 {
        stage.receive_view(q, pair(q, 1));
    }
    stage.receive_view(4, pair(4, 2));
    stage.start_change(2, 1);
    stage.receive_view(4, pair(4, 2));
}

pub(crate) fn play(stage: &mut Stage) {
    eleventh(stage);
    twelfth(stage);
}
