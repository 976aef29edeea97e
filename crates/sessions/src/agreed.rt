// Sessions 7 to 10: a change, what the members of T agree on, and what they owe.
use crate::stage::Stage;
use views::View;

// {0,1,2}, then {0,1}
const THREE: View = View {
    starts: [1, 1, 1, 0, 0, 0, 0, 0],
    id: 1,
    set: 7,
};

const TWO: View = View {
    starts: [2, 2, 0, 0, 0, 0, 0, 0],
    id: 2,
    set: 3,
};

// {0,1,2,3}, then {0,1,3}
const FOUR: View = View {
    starts: [1, 1, 1, 1, 0, 0, 0, 0],
    id: 1,
    set: 15,
};

const OTHERS: View = View {
    starts: [2, 2, 0, 2, 0, 0, 0, 0],
    id: 2,
    set: 11,
};

// THREE but for one start number
const ALMOST: View = View {
    starts: [1, 2, 1, 0, 0, 0, 0, 0],
    ..THREE
};

// A change of this number up to its membership view.
fn change(stage: &mut Stage, number: u32, v: View) {
    stage.start_change(number, v.set);
    stage.ask_to_block();
    stage.block_ok();
    stage.declare();
    stage.sync();
    stage.membership_view(v);
}

// A fresh end-point p goes from its initial view into this one.
fn enter(stage: &mut Stage, p: u8, v: View) {
    stage.fresh(p);
    change(stage, 1, v);
    stage.install();
    stage.declare();
    stage.announce();
}

// End-point p in the change from one view to the next, with n words of member 2.
fn with_words(stage: &mut Stage, p: u8, from: View, n: u8, to: View) {
    enter(stage, p, from);
    stage.receive_view(2, from);
    for i in 1..=n {
        stage.receive_word(i);
    }
    change(stage, 2, to);
}

// End-point p in session 7, with n words of member 2 and the other's sync; it may not install yet.
fn in_seventh(stage: &mut Stage, p: u8, n: u8, q: u8, of_q: u8) {
    with_words(stage, p, THREE, n, TWO);
    stage.receive_sync(q, THREE, of_q);
    stage.install();
}

// End-point 0: three words held, five agreed on, a sixth come.
fn seventh(stage: &mut Stage) {
    stage.session(7);
    in_seventh(stage, 0, 3, 1, 5);
    for _ in 0..4 {
        stage.give_out(2);
    }
    for i in 4..=6 {
        stage.receive_forward(1, i);
    }
    for _ in 0..3 {
        stage.give_out(2);
    }
    stage.install();
}

// Member 1 owes 0 words 4 and 5.
fn seventh_of_1(stage: &mut Stage) {
    in_seventh(stage, 1, 5, 0, 3);
    for _ in 0..3 {
        stage.forward(0, 2);
    }
    stage.install();
}

// Session 8: the words of member 2 that 0, 1 and 3 hold, and so their cuts for it.
fn held(p: u8) -> u8 {
    match p {
        0 => 2,
        1 => 5,
        _ => 7,
    }
}

// End-point p in session 8, with the syncs of q and r; it may not install yet.
fn in_eighth(stage: &mut Stage, p: u8, q: u8, r: u8) {
    with_words(stage, p, FOUR, held(p), OTHERS);
    stage.receive_sync(q, FOUR, held(q));
    stage.receive_sync(r, FOUR, held(r));
    stage.install();
}

// End-point 0: two words held, seven agreed on. Those that members 1 and 3 owe it come, and an eighth: seven are given out.
fn eighth(stage: &mut Stage) {
    stage.session(8);
    in_eighth(stage, 0, 1, 3);
    for _ in 0..3 {
        stage.give_out(2);
    }
    for i in 3..=5 {
        stage.receive_forward(1, i);
    }
    for i in 6..=8 {
        stage.receive_forward(3, i);
    }
    for _ in 0..6 {
        stage.give_out(2);
    }
    stage.install();
}

// Member 1 owes 0 words 3, 4 and 5, and 3 none.
fn eighth_of_1(stage: &mut Stage) {
    in_eighth(stage, 1, 0, 3);
    for _ in 0..4 {
        stage.forward(0, 2);
    }
    stage.forward(3, 2);
    stage.install();
}

// Member 3 owes words 6 and 7 to 0 and to 1.
fn eighth_of_3(stage: &mut Stage) {
    in_eighth(stage, 3, 0, 1);
    for q in 0..2 {
        for _ in 0..3 {
            stage.forward(q, 2);
        }
        stage.install();
    }
}

// All cuts 0: nothing is owed to 1, nothing is to give out, and the view is installed.
fn ninth(stage: &mut Stage) {
    stage.session(9);
    enter(stage, 0, THREE);
    change(stage, 2, TWO);
    stage.receive_sync(1, THREE, 0);
    for r in 0..3 {
        stage.forward(1, r);
    }
    for q in 0..3 {
        stage.give_out(q);
    }
    stage.install();
}

// Member 1's record is of a view that differs in one start number: its count of five is not agreed on.
fn tenth(stage: &mut Stage) {
    stage.session(10);
    enter(stage, 0, THREE);
    change(stage, 2, TWO);
    stage.receive_sync(1, ALMOST, 5);
    stage.install();
}

pub(crate) fn play(stage: &mut Stage) {
    seventh(stage);
    seventh_of_1(stage);
    eighth(stage);
    eighth_of_1(stage);
    eighth_of_3(stage);
    ninth(stage);
    tenth(stage);
}
