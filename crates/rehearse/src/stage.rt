// The stage: the end-points that were made; the channels between them lie beside it.
use crate::channels::Channels;
use crate::commands::{Command, Step};
use crate::desk::Desk;
use crate::fault::{Fault, Problem, Refused};
use crate::reply::Reply;
use endpoint::Refusal;
use views::sets;

// The desk of end-point p is at p.
#[derive(Drop)]
pub(crate) struct Stage<'s> {
    desks: &'s mut [Desk; 8],
}

impl<'s> Stage<'s> {
    pub(crate) fn new(desks: &'s mut [Desk; 8]) -> Stage<'s> {
        Stage { desks }
    }

    // Made once, under a number of its own.
    fn fresh(&mut self, p: u8) -> Result<Reply<'_>, Problem> {
        let desks = &mut *self.desks;
        let desk = desks
            .get_mut(usize::from(p))
            .ok_or(Problem::Refused(Refused(Refusal::Unfit)))?;
        desk.fresh(p)
    }

    // The last message from p to q is lost, where q is outside p's declared set.
    fn lose(&self, channels: &mut Channels, p: u8, q: u8) -> Result<(), Problem> {
        let desk = self
            .desks
            .get(usize::from(p))
            .filter(|desk| desk.made)
            .ok_or(Fault::NotMade)?;
        if channels.head(p, q).is_none() {
            return Err(Fault::Empty.into());
        }
        if sets::contains(desk.point.declared, q) {
            return Err(Fault::Declared.into());
        }
        channels.lose(p, q);
        Ok(())
    }

    // The command that a line's fields say.
    pub(crate) fn play<'a>(
        &'a mut self,
        channels: &'a mut Channels,
        fields: &[&[u8]],
    ) -> Result<Reply<'a>, Problem> {
        match Command::read(fields)? {
            Command::Fresh(p) => self.fresh(p),
            Command::Lose(p, q) => {
                self.lose(channels, p, q)?;
                Ok(Reply::Done)
            }
            Command::Channel(p, q) => Ok(Reply::Channel(channels.way(p, q))),
            Command::At(p, fields) => {
                let desks = &mut *self.desks;
                let desk = desks
                    .get_mut(usize::from(p))
                    .filter(|desk| desk.made)
                    .ok_or(Fault::NotMade)?;
                desk.step(Step::read(fields)?, channels)
            }
        }
    }
}
