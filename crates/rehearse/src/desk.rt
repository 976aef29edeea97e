// One end-point with its word area: the library's steps, and their effect on the channels.
use crate::channels::Channels;
use crate::commands::Step;
use crate::fault::{Fault, Problem, Refused};
use crate::packet::Packet;
use crate::reply::Reply;
use endpoint::{Answer, EndPoint, Refusal};
use messages::Message;
use views::View;

// How many words an area has room for.
const AREA: usize = 4096;

// Its end-point is none until it is made; its words are those of the last batch.
#[derive(Clone, Copy)]
pub(crate) struct Desk {
    pub(crate) made: bool,
    pub(crate) point: EndPoint,
    pub(crate) area: [u64; AREA],
    words: [u64; 128],
}

// A step's number, 0 where it is accepted.
fn accepted(number: u8) -> Result<(), Problem> {
    match Refusal::of(number) {
        None => Ok(()),
        Some(refusal) => Err(Problem::Refused(Refused(refusal))),
    }
}

impl Desk {
    // A place for an end-point: its word area is all zero at first.
    pub(crate) fn unmade() -> Desk {
        Desk {
            made: false,
            point: EndPoint::fresh(0).ep,
            area: [0u64; AREA],
            words: [0u64; 128],
        }
    }

    #[inline(never)]
    pub(crate) fn fresh(&mut self, me: u8) -> Result<Reply<'_>, Problem> {
        if self.made {
            return Err(Fault::Made.into());
        }
        let answer = EndPoint::fresh(me);
        accepted(answer.number)?;
        self.point = answer.ep;
        self.made = true;
        Ok(Reply::Done)
    }

    // The end-point is as the step left it.
    fn settle(&mut self, answer: &Answer) -> Result<(), Problem> {
        self.point = answer.ep;
        accepted(answer.number)
    }

    // A step that gives nothing.
    fn plain(&mut self, answer: &Answer) -> Result<Reply<'_>, Problem> {
        self.settle(answer)?;
        Ok(Reply::Done)
    }

    // A step that sends: the message goes into the channels, or, where one is full, nothing has happened.
    fn sends(&mut self, answer: &Answer, channels: &mut Channels) -> Result<Reply<'_>, Problem> {
        accepted(answer.number)?;
        let me = self.point.me;
        if !channels.have_room(me, answer.set) {
            return Err(Fault::Full.into());
        }
        let packet = Packet::of(answer.message);
        channels.send(me, answer.set, packet);
        self.point = answer.ep;
        Ok(Reply::Sent(answer.set, packet))
    }

    // Each step is a function that is never inlined: one pays at entry for the size of its locals, and an answer is large.
    #[inline(never)]
    fn send(&mut self, w: u64) -> Result<Reply<'_>, Problem> {
        let answer = self.point.send(&mut self.area, w);
        self.plain(&answer)
    }

    #[inline(never)]
    fn block_ok(&mut self) -> Result<Reply<'_>, Problem> {
        let answer = self.point.block_ok();
        self.plain(&answer)
    }

    #[inline(never)]
    fn start(&mut self, n: u32, set: u8) -> Result<Reply<'_>, Problem> {
        let answer = self.point.start_change(n, set);
        self.plain(&answer)
    }

    #[inline(never)]
    fn view(&mut self, view: View) -> Result<Reply<'_>, Problem> {
        let answer = self.point.membership_view(view);
        self.plain(&answer)
    }

    // The message at the head of the channel from q, which leaves it where it is accepted.
    #[inline(never)]
    fn receive(&mut self, q: u8, channels: &mut Channels) -> Result<Reply<'_>, Problem> {
        let me = self.point.me;
        if 7 < q || q == me {
            return Err(Problem::Refused(Refused(Refusal::Unfit)));
        }
        let packet = channels.head(q, me).ok_or(Fault::Empty)?;
        let answer = self.point.receive(&mut self.area, q, packet.message());
        self.settle(&answer)?;
        channels.take(q, me);
        Ok(Reply::Done)
    }

    #[inline(never)]
    fn bytes(&mut self, q: u8, message: Message) -> Result<Reply<'_>, Problem> {
        let answer = self.point.receive(&mut self.area, q, message);
        self.plain(&answer)
    }

    #[inline(never)]
    fn ask(&mut self) -> Result<Reply<'_>, Problem> {
        let answer = self.point.ask_to_block();
        self.plain(&answer)
    }

    #[inline(never)]
    fn declare(&mut self) -> Result<Reply<'_>, Problem> {
        let answer = self.point.declare();
        self.settle(&answer)?;
        Ok(Reply::Declared(answer.set))
    }

    #[inline(never)]
    fn announce(&mut self, channels: &mut Channels) -> Result<Reply<'_>, Problem> {
        let answer = self.point.announce();
        self.sends(&answer, channels)
    }

    #[inline(never)]
    fn pass(&mut self, channels: &mut Channels) -> Result<Reply<'_>, Problem> {
        let answer = self.point.pass_out(&self.area);
        self.sends(&answer, channels)
    }

    #[inline(never)]
    fn sync(&mut self, channels: &mut Channels) -> Result<Reply<'_>, Problem> {
        let answer = self.point.sync();
        self.sends(&answer, channels)
    }

    #[inline(never)]
    fn forward(&mut self, q: u8, r: u8, channels: &mut Channels) -> Result<Reply<'_>, Problem> {
        let answer = self.point.forward(&self.area, q, r);
        self.sends(&answer, channels)
    }

    #[inline(never)]
    fn give(&mut self, q: u8) -> Result<Reply<'_>, Problem> {
        let answer = self.point.give_out(&self.area, q);
        self.settle(&answer)?;
        Ok(Reply::Word(answer.word))
    }

    // As many words as there are, up to the room.
    #[inline(never)]
    fn batch(&mut self, q: u8, room: u8) -> Result<Reply<'_>, Problem> {
        let words = self.words.get_mut(..usize::from(room)).ok_or(Fault::Room)?;
        let batch = self.point.batch(&self.area, q, words);
        self.point = batch.ep;
        accepted(batch.number)?;
        let words = self.words.as_slice();
        let given = words.get(..batch.count as usize);
        Ok(Reply::Batch(given.unwrap_or(words)))
    }

    #[inline(never)]
    fn install(&mut self) -> Result<Reply<'_>, Problem> {
        let answer = self.point.install();
        self.settle(&answer)?;
        Ok(Reply::Installed(answer.view, answer.set))
    }

    pub(crate) fn step(
        &mut self,
        step: Step,
        channels: &mut Channels,
    ) -> Result<Reply<'_>, Problem> {
        match step {
            Step::Send(w) => self.send(w),
            Step::BlockOk => self.block_ok(),
            Step::Start(n, set) => self.start(n, set),
            Step::View(view) => self.view(view),
            Step::Receive(q) => self.receive(q, channels),
            Step::Bytes(q, message) => self.bytes(q, message),
            Step::Ask => self.ask(),
            Step::Declare => self.declare(),
            Step::Announce => self.announce(channels),
            Step::Pass => self.pass(channels),
            Step::Sync => self.sync(channels),
            Step::Forward(q, r) => self.forward(q, r, channels),
            Step::Give(q) => self.give(q),
            Step::Batch(q, room) => self.batch(q, room),
            Step::Install => self.install(),
            Step::Show => Ok(Reply::Shown(self)),
            Step::Area => Ok(Reply::Area(self.area.as_slice())),
        }
    }
}
