//! `backoff LEAST MOST NUMERATOR DIVISOR WORD [refused]`: the least and the greatest wait in nanoseconds, the jitter and the generator's first word; if
//! it is `refused`, the generator has no clone. `make` makes a backoff, `make of a clone` one of the
//! maker's clone, and `clone` a clone of the backoff; each takes the place of the one before. `wait` begins a wait, whose number is the answer.
//! `fut 0` polls a wait and `drop 0` drops it; one that is over is dropped. `skip N` begins so many waits and drops them.

use crate::budget::fraction_at;
use crate::rising::Rising;
use futures::task::{Poll, Solo};
use scripted::party::Party;
use scripted::report::Report;
use scripted::script::Script;
use std::alloc::{AllocError, Global};
use tests_support::run::stepped;
use tests_support::slots::{put, take};
use tower_base::service::{Clock, Sleep};
use tower_base::util::rng::Rng;
use tower_latch::held::Pollable;
use tower_retry::retry::backoff::{
    Backoff, ExponentialBackoff, ExponentialBackoffMaker, MakeBackoff,
};

// A maker, the backoff that it made last, and its waits.
#[derive(Drop)]
struct Waits<'s, G, C: Clock> {
    alloc: Global,
    solo: &'s Solo,
    maker: Option<ExponentialBackoffMaker<G, C>>,
    backoff: Option<ExponentialBackoff<G, C>>,
    waits: Vec<Option<Pollable<Sleep<C>>>>,
}

impl<'s, G: Rng + Clone, C: Clock> Waits<'s, G, C> {
    fn text(&self, text: &str) -> Result<Option<String>, AllocError> {
        Ok(Some(text.to_string(self.alloc)?))
    }

    fn make(&mut self, of_clone: bool) -> Result<ExponentialBackoff<G, C>, AllocError> {
        let Some(maker) = &mut self.maker else {
            return Err(AllocError);
        };
        if of_clone {
            let mut copy = maker.clone()?;
            return copy.make_backoff();
        }
        maker.make_backoff()
    }

    fn copied(&self) -> Result<ExponentialBackoff<G, C>, AllocError> {
        match &self.backoff {
            Some(backoff) => backoff.clone(),
            None => Err(AllocError),
        }
    }

    fn takes_place(
        &mut self,
        made: Result<ExponentialBackoff<G, C>, AllocError>,
    ) -> Result<Option<String>, AllocError> {
        match made {
            Ok(backoff) => {
                self.backoff = Some(backoff);
                self.text("")
            }
            Err(AllocError) => self.text("out of memory"),
        }
    }

    fn wait(&mut self) -> Result<Option<String>, AllocError> {
        let Some(backoff) = &mut self.backoff else {
            return self.text("skipped");
        };
        let wait = Pollable::new(backoff.next_backoff());
        let number = self.waits.len();
        self.waits.push(Some(wait))?;
        Ok(Some(format!(in self.alloc; "wait {number}")?))
    }

    fn skip(&mut self, count: &str) -> Result<Option<String>, AllocError> {
        let (Some(backoff), Ok(count)) = (&mut self.backoff, count.parse::<u8>()) else {
            return Ok(None);
        };
        for _ in 0..count {
            drop(backoff.next_backoff());
        }
        self.text("")
    }

    fn poll(&mut self, place: &str) -> Result<Option<String>, AllocError> {
        let Ok(place) = place.parse::<usize>() else {
            return Ok(None);
        };
        let Some(wait) = take(&mut self.waits, place) else {
            return self.text("skipped");
        };
        let mut wait = wait.into_inner();
        match stepped(self.solo, &mut wait) {
            Poll::Pending => {
                put(&mut self.waits, place, Pollable::new(wait));
                self.text("pending")
            }
            Poll::Ready(()) => self.text("over"),
        }
    }

    fn let_go(&mut self, place: &str) -> Result<Option<String>, AllocError> {
        let Ok(place) = place.parse::<usize>() else {
            return Ok(None);
        };
        drop(take(&mut self.waits, place));
        self.text("")
    }
}

impl<'s, G: Rng + Clone, C: Clock> Party for Waits<'s, G, C> {
    fn act(&mut self, words: &str) -> Result<Option<String>, AllocError> {
        match words {
            "make" => {
                let made = self.make(false);
                return self.takes_place(made);
            }
            "make of a clone" => {
                let made = self.make(true);
                return self.takes_place(made);
            }
            "clone" => {
                let made = self.copied();
                return self.takes_place(made);
            }
            "wait" => return self.wait(),
            _ => {}
        }
        match words.split_once(' ') {
            Some(("fut", place)) => self.poll(place),
            Some(("drop", place)) => self.let_go(place),
            Some(("skip", count)) => self.skip(count),
            _ => Ok(None),
        }
    }

    fn end(&mut self) {
        self.waits.clear();
        self.backoff = None;
        self.maker = None;
    }
}

fn played<G: Rng + Clone, C: Clock>(
    script: &Script<'_>,
    report: &mut Report<'_>,
    maker: ExponentialBackoffMaker<G, C>,
) -> Result<(), AllocError> {
    let mut waits = Waits {
        alloc: script.alloc(),
        solo: script.solo(),
        maker: Some(maker),
        backoff: None,
        waits: Vec::new(script.alloc()),
    };
    script.play_party(report, &mut waits)
}

pub fn play(script: &Script<'_>, report: &mut Report<'_>) -> Result<(), AllocError> {
    let (Some(least), Some(most), Some(jitter), Some(word)) = (
        script.number(0),
        script.number(1),
        fraction_at(script, 2),
        script.number(4),
    ) else {
        return script.unread(report);
    };
    let mut words = Rising::new(script.stage().log, word);
    words.refuses = script.has("refused");
    match ExponentialBackoffMaker::new(least, most, jitter, words, script.clock()) {
        Ok(maker) => played(script, report, maker),
        Err(error) => {
            let text = format!(in script.alloc(); "error {error}")?;
            script.over(report, text.as_str())
        }
    }
}
