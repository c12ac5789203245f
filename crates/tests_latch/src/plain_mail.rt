//! Mail as its definition says it, of the steps that a storm makes: a plain list of messages beside a plain line.

use crate::plain_line::PlainLine;
use std::alloc::Global;
use std::test::Fail;
use tower_buffer::buffer::{MailReply, MailStep};
use tower_limit::limit::concurrency::{LineReply, LineStep};

pub type Step = MailStep<u64, u64, u64>;

pub type Reply = MailReply<u64, u64, u64>;

#[derive(Clone, Copy, Debug, PartialEq, Eq)]
enum State {
    Queued(u64),
    Taken,
    Answered(u64),
}

// Mail as a plain list of messages, by id and in the order of sending, with a plain line for the places.
#[derive(Drop)]
pub struct PlainMail {
    line: PlainLine,
    messages: Vec<(u64, State)>,
    reserved: u64,
}

impl PlainMail {
    fn new(alloc: Global, bound: usize) -> PlainMail {
        PlainMail {
            line: PlainLine::new(alloc, bound),
            messages: Vec::new(alloc),
            reserved: 0,
        }
    }

    pub fn free(&self) -> usize {
        self.line.free()
    }

    // No message has its id any more.
    pub fn is_empty(&self) -> bool {
        self.messages.is_empty()
    }

    fn state(&self, id: u64) -> Option<State> {
        let place = self.messages.iter().position(|it| it.0 == id)?;
        Some(self.messages.get(place)?.1)
    }

    fn put(&mut self, id: u64, state: State) {
        for message in self.messages.iter_mut() {
            if message.0 == id {
                message.1 = state;
            }
        }
    }

    fn in_line(&mut self, step: LineStep, fresh: u64) -> Result<Reply, Fail> {
        Ok(match self.line.reply(step, fresh)? {
            LineReply::Granted => {
                self.reserved = self.reserved.saturating_add(1);
                MailReply::Place
            }
            LineReply::Waiting(key) => MailReply::Waiting(key),
            _ => MailReply::Unknown,
        })
    }

    fn send(&mut self, request: u64, fresh: u64) -> Result<Reply, Fail> {
        if self.reserved == 0 {
            return Ok(MailReply::Unknown);
        }
        if self.state(fresh).is_some() {
            return Err("an id isn't fresh".into());
        }
        self.reserved = self.reserved.saturating_sub(1);
        self.messages.push((fresh, State::Queued(request)))?;
        Ok(MailReply::Sent(fresh))
    }

    // The oldest message that is queued leaves its place.
    fn take(&mut self) -> Result<Reply, Fail> {
        for place in 0..self.messages.len() {
            if let Some(&(id, State::Queued(request))) = self.messages.get(place) {
                self.put(id, State::Taken);
                return match self.line.reply(LineStep::Release, 0)? {
                    LineReply::Left => Ok(MailReply::Message(id, request)),
                    _ => Err("no place was held".into()),
                };
            }
        }
        Ok(MailReply::Empty)
    }

    fn answer(&mut self, id: u64, future: u64) -> Reply {
        if self.state(id) != Some(State::Taken) {
            return MailReply::Unknown;
        }
        self.put(id, State::Answered(future));
        MailReply::Done
    }

    fn outcome(&mut self, id: u64) -> Reply {
        match self.state(id) {
            None => MailReply::Unknown,
            Some(State::Answered(future)) => {
                self.messages.retain(|it| it.0 != id);
                MailReply::Future(future)
            }
            Some(_) => MailReply::Waiting(id),
        }
    }

    // Makes the step. Whether it has this reply. One who waits, or what is sent, has a number that is fresh.
    fn answers(&mut self, step: Step, reply: Reply) -> Result<bool, Fail> {
        let fresh = match reply {
            MailReply::Waiting(key) => key,
            MailReply::Sent(id) => id,
            _ => 0,
        };
        let want = match step {
            MailStep::Reserve => self.in_line(LineStep::Join, fresh)?,
            MailStep::Look(key) => self.in_line(LineStep::Look(key), fresh)?,
            MailStep::Send(request) => self.send(request, fresh)?,
            MailStep::Take => self.take()?,
            MailStep::Answer(id, future) => self.answer(id, future),
            MailStep::Outcome(id) => self.outcome(id),
            _ => return Err("a storm makes no such step".into()),
        };
        Ok(want == reply)
    }

    // Makes all steps of a history of mail that nobody had asked.
    pub fn replay(
        alloc: Global,
        bound: usize,
        entries: &[(Step, Reply)],
    ) -> Result<PlainMail, Fail> {
        let mut mail = PlainMail::new(alloc, bound);
        for (step, reply) in entries {
            if !mail.answers(*step, *reply)? {
                return Err("the plain mail has another reply".into());
            }
        }
        Ok(mail)
    }
}
