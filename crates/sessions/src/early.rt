// Sessions 1 to 6: a fresh end-point 0.
use crate::stage::{Stage, word};
use views::View;

fn first(stage: &mut Stage) {
    stage.session(1);
    stage.fresh(0);
    stage.give_out(0);
    stage.install();
    stage.ask_to_block();
}

fn second(stage: &mut Stage) {
    stage.session(2);
    stage.fresh(0);
    stage.send(7);
    stage.give_out(0);
    stage.pass_out();
    stage.give_out(0);
}

fn third(stage: &mut Stage) {
    stage.session(3);
    stage.fresh(0);
    stage.start_change(0, 1);
    stage.start_change(1, 2);
    stage.start_change(1, 3);
    stage.start_change(1, 3);
}

fn fourth(stage: &mut Stage) {
    let v = View {
        starts: [1, 1, 0, 0, 0, 0, 0, 0],
        id: 1,
        set: 3,
    };
    stage.session(4);
    stage.fresh(0);
    stage.membership_view(v);
    stage.start_change(1, 3);
    stage.membership_view(v);
}

fn fifth(stage: &mut Stage) {
    stage.session(5);
    stage.fresh(0);
    stage.start_change(u32::MAX, 1);
    stage.start_change(u32::MAX, 1);
    stage.start_change(u32::MAX - 1, 3);
    stage.start_change(1, 255);
}

fn sixth(stage: &mut Stage) {
    stage.session(6);
    stage.fresh(0);
    for i in 1..=129 {
        stage.send(word(i));
    }
}

pub(crate) fn play(stage: &mut Stage) {
    first(stage);
    second(stage);
    third(stage);
    fourth(stage);
    fifth(stage);
    sixth(stage);
}
