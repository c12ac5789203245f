//! A line of permits as its definition says it: a plain list of tickets.
ghost use Rattle.std.specs.Prelude.{◌<◌, IfSome, vec_len};

use std::alloc::Global;
use std::test::Fail;
use tower_limit::limit::concurrency::{LineReply, LineStep};

#[derive(Clone, Copy, Debug, PartialEq, Eq)]
enum Ticket {
    Held,
    Waits(u64),
}

// A line of permits as a plain list: the first `max` tickets have one.
#[derive(Drop)]
pub struct PlainLine {
    max: usize,
    tickets: Vec<Ticket>,
}

impl PlainLine {
    pub fn new(alloc: Global, max: usize) -> PlainLine {
        PlainLine {
            max,
            tickets: Vec::new(alloc),
        }
    }

    pub fn free(&self) -> usize {
        self.max.saturating_sub(self.tickets.len())
    }

    fn place_of(&self, ticket: Ticket) -> Option<usize>
        ensures { IfSome result (λ place. place < vec_len self.now.tickets) }
    {
        self.tickets.iter().position(|other| *other == ticket)
    }

    // A permit of the first `max` tickets is seen.
    fn look(&mut self, key: u64) -> LineReply {
        let Some(place) = self.place_of(Ticket::Waits(key)) else {
            return LineReply::Unknown;
        };
        if place >= self.max {
            return LineReply::Waiting(key);
        }
        if let Some(ticket) = self.tickets.get_mut(place) {
            *ticket = Ticket::Held;
        }
        LineReply::Granted
    }

    // A place in the line, under this key if no permit is free.
    fn join(&mut self, fresh: u64) -> Result<LineReply, Fail> {
        if self.free() > 0 {
            self.tickets.push(Ticket::Held)?;
            return Ok(LineReply::Granted);
        }
        if self.place_of(Ticket::Waits(fresh)).is_some() {
            return Err("a key isn't fresh".into());
        }
        self.tickets.push(Ticket::Waits(fresh))?;
        Ok(LineReply::Waiting(fresh))
    }

    fn leave(&mut self, ticket: Ticket) -> LineReply {
        let Some(place) = self.place_of(ticket) else {
            return LineReply::Unknown;
        };
        self.tickets.remove(place);
        LineReply::Left
    }

    // Makes the step, and works its reply out. One who waits has this key, which must be fresh.
    pub fn reply(&mut self, step: LineStep, fresh: u64) -> Result<LineReply, Fail> {
        Ok(match step {
            LineStep::Join => self.join(fresh)?,
            LineStep::Look(key) => self.look(key),
            LineStep::Cancel(key) => self.leave(Ticket::Waits(key)),
            LineStep::Release => self.leave(Ticket::Held),
            LineStep::Free => LineReply::Count(self.free()),
        })
    }

    // Makes the step. Whether it has this reply.
    fn answers(&mut self, step: LineStep, reply: LineReply) -> Result<bool, Fail> {
        let key = match reply {
            LineReply::Waiting(key) => key,
            _ => 0,
        };
        Ok(self.reply(step, key)? == reply)
    }

    // Makes all steps of a history of a line that nobody had asked.
    pub fn replay(
        alloc: Global,
        max: usize,
        entries: &[(LineStep, LineReply)],
    ) -> Result<PlainLine, Fail> {
        let mut line = PlainLine::new(alloc, max);
        for (step, reply) in entries {
            if !line.answers(*step, *reply)? {
                return Err("the plain line has another reply".into());
            }
        }
        Ok(line)
    }
}
