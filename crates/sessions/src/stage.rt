// Where the sessions are played: an end-point, its word area, the output. Each step has its line: what was done, the number, what it gave.
use crate::show::Output;
use endpoint::{Answer, EndPoint};
use messages::{Kind, Message};
use std::fmt::Display;
use std::io;
use std::io::Stdout;
use views::{Cut, View};

// Word i of member 2, and so is own word i.
pub(crate) fn word(i: u8) -> u64 {
    20 + u64::from(i)
}

// One word area serves all sessions: a fresh end-point marks nothing held, so what an earlier session left there is not read.
#[derive(Drop)]
pub(crate) struct Stage {
    ep: EndPoint,
    area: [u64; 4096],
    output: Output,
}

impl Stage {
    pub(crate) fn new(out: Stdout) -> Stage {
        Stage {
            ep: EndPoint::fresh(0).ep,
            area: [0; 4096],
            output: Output::new(out),
        }
    }

    // The first error, where a write failed.
    pub(crate) fn finish(self) -> io::Result<()> {
        self.output.finish()
    }

    // The line of a session.
    pub(crate) fn session(&mut self, n: u8) {
        writeln!(self.output, "session {n}");
    }

    // A line of words that a batch gave.
    pub(crate) fn words(&mut self, out: [u64; 3]) {
        let [a, b, c] = out;
        writeln!(self.output, "area: {a} {b} {c}");
    }

    // Goes on with the end-point that a step answers, and writes the step's line, with what it gives where it was accepted:
    // number 0, as the answer has it for C.
    fn go_on<S: Display + Drop, G: Display + Drop>(
        &mut self,
        step: S,
        ep: EndPoint,
        number: u8,
        gives: G,
    ) {
        self.ep = ep;
        write!(self.output, "{step}: {number}");
        if number == 0 {
            write!(self.output, "{gives}");
        }
        writeln!(self.output);
    }

    // The same for a step that gives nothing but its number.
    fn plain<S: Display + Drop>(&mut self, step: S, a: Answer) {
        self.go_on(step, a.ep, a.number, "");
    }

    pub(crate) fn fresh(&mut self, p: u8) {
        self.plain(format_args!("fresh {p}"), EndPoint::fresh(p));
    }

    pub(crate) fn send(&mut self, w: u64) {
        let a = self.ep.send(&mut self.area, w);
        self.plain("send", a);
    }

    pub(crate) fn block_ok(&mut self) {
        self.plain("block ok", self.ep.block_ok());
    }

    pub(crate) fn start_change(&mut self, number: u32, set: u8) {
        let step = format_args!("start change {number} with set {set}");
        self.plain(step, self.ep.start_change(number, set));
    }

    pub(crate) fn membership_view(&mut self, v: View) {
        let step = format_args!("membership view {}", v.id);
        self.plain(step, self.ep.membership_view(v));
    }

    // A message of the kind that the name says.
    fn receive(&mut self, name: &str, q: u8, m: Message) {
        let a = self.ep.receive(&mut self.area, q, m);
        self.plain(format_args!("receive {name} from {q}"), a);
    }

    pub(crate) fn receive_view(&mut self, q: u8, v: View) {
        self.receive("view", q, Message::of_view(Kind::View.into(), v));
    }

    // Word i of member 2.
    pub(crate) fn receive_word(&mut self, i: u8) {
        self.receive("word", 2, Message::of_word(word(i)));
    }

    // A sync of start number 2, with this view and count for member 2.
    pub(crate) fn receive_sync(&mut self, q: u8, v: View, n: u8) {
        let cut = Cut {
            counts: [0, 0, n, 0, 0, 0, 0, 0],
        };
        self.receive("sync", q, Message::of_sync(2, v, cut));
    }

    // Word i of member 2 comes by way of q.
    pub(crate) fn receive_forward(&mut self, q: u8, i: u8) {
        let m = Message::of_forward(2, i, self.ep.current, word(i));
        self.receive("forward", q, m);
    }

    pub(crate) fn ask_to_block(&mut self) {
        self.plain("ask to block", self.ep.ask_to_block());
    }

    pub(crate) fn declare(&mut self) {
        let a = self.ep.declare();
        self.go_on("declare", a.ep, a.number, format_args!(" set {}", a.set));
    }

    pub(crate) fn announce(&mut self) {
        let a = self.ep.announce();
        let gives = format_args!(" to set {} view {}", a.set, a.message.view.id);
        self.go_on("announce", a.ep, a.number, gives);
    }

    pub(crate) fn pass_out(&mut self) {
        let a = self.ep.pass_out(&self.area);
        let gives = format_args!(" to set {} word {}", a.set, a.message.word);
        self.go_on("pass out", a.ep, a.number, gives);
    }

    // Of the cut, the count for member 2.
    pub(crate) fn sync(&mut self) {
        let a = self.ep.sync();
        let count = a.message.cut.count(2);
        let gives = format_args!(" to set {} cut for 2 of {count}", a.set);
        self.go_on("sync", a.ep, a.number, gives);
    }

    pub(crate) fn forward(&mut self, q: u8, r: u8) {
        let a = self.ep.forward(&self.area, q, r);
        let step = format_args!("forward to {q} of {r}");
        let gives = format_args!(" to set {} index {}", a.set, a.message.index);
        self.go_on(step, a.ep, a.number, gives);
    }

    pub(crate) fn give_out(&mut self, q: u8) {
        let a = self.ep.give_out(&self.area, q);
        let step = format_args!("give out {q}");
        self.go_on(step, a.ep, a.number, format_args!(" word {}", a.word));
    }

    pub(crate) fn batch(&mut self, q: u8, out: &mut [u64]) {
        let b = self.ep.batch(&self.area, q, out);
        let step = format_args!("batch from {q} with room for {}", out.len());
        self.go_on(step, b.ep, b.number, format_args!(" count {}", b.count));
    }

    pub(crate) fn install(&mut self) {
        let a = self.ep.install();
        let gives = format_args!(" view {} T {}", a.view.id, a.set);
        self.go_on("install", a.ep, a.number, gives);
    }
}
