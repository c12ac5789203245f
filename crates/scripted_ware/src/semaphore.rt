//! `semaphore PERMITS [SHARES]`: over a latch whose steps are noted. `asker` makes one that asks for permits, by a share; its letter is the answer.
//! `poll a` asks for a permit, whose number is the answer; `drop 0` gives it back, and `drop a` drops the asker. `share a` makes a share
//! of the asker's semaphore, and `share` one of the semaphore itself; both are dropped. `free` and `max` tell how many permits are free and
//! how many there are, and `share max` the latter by a share. `shares N` says how many shares there are from now on, and `cancel N` takes the
//! place with this key out of the line, which no asker does for another.

use crate::concurrency_limit::{noting, shares_at};
use futures::task::{Poll, Solo};
use scripted::party::Party;
use scripted::report::Report;
use scripted::script::Script;
use std::alloc::{AllocError, Global};
use std::cell::Cell;
use std::sync::Wait;
use tests_support::run::end;
use tests_support::slots::{put, take};
use tower_latch::{Guarded, Latch};
use tower_limit::limit::concurrency::{
    LineCore, LineReply, LineStep, Permit, PollSemaphore, Semaphore,
};

// A semaphore, those that ask it for permits, the permits, and a latch beside them.
#[derive(Drop)]
struct Asked<'s, L: Latch<LineCore>, B: Latch<LineCore>> {
    alloc: Global,
    solo: &'s Solo,
    shares: &'s Cell<u8>,
    beside: B,
    semaphore: Option<Semaphore<L>>,
    askers: Vec<Option<PollSemaphore<L>>>,
    permits: Vec<Option<Permit<L>>>,
}

// The place of a letter.
fn place_of(letter: &str) -> Option<usize> {
    match letter {
        "a" => Some(0),
        "b" => Some(1),
        "c" => Some(2),
        _ => None,
    }
}

// The letter of the asker after so many.
fn letter_after(count: usize) -> &'static str {
    match count {
        0 => "a",
        1 => "b",
        2 => "c",
        _ => "?",
    }
}

impl<'s, L: Latch<LineCore>, B: Latch<LineCore>> Asked<'s, L, B> {
    fn text(&self, text: &str) -> Result<Option<String>, AllocError> {
        Ok(Some(text.to_string(self.alloc)?))
    }

    fn asker(&mut self) -> Result<Option<String>, AllocError> {
        let Some(semaphore) = &self.semaphore else {
            return self.text("skipped");
        };
        let Ok(share) = semaphore.share() else {
            return self.text("out of memory");
        };
        let letter = letter_after(self.askers.len());
        self.askers.push(Some(PollSemaphore::new(share)))?;
        self.text(letter)
    }

    fn poll(&mut self, place: usize) -> Result<Option<String>, AllocError> {
        let Some(mut asker) = take(&mut self.askers, place) else {
            return self.text("skipped");
        };
        let mut cx = self.solo.begin();
        let answer = asker.poll_acquire(&mut cx);
        end(cx, &answer);
        put(&mut self.askers, place, asker);
        match answer {
            Poll::Ready(Ok(permit)) => {
                let number = self.permits.len();
                self.permits.push(Some(permit))?;
                Ok(Some(format!(in self.alloc; "permit {number}")?))
            }
            Poll::Ready(Err(AllocError)) => self.text("out of memory"),
            Poll::Pending => self.text("pending"),
        }
    }

    fn share(&self, letter: &str) -> Result<Option<String>, AllocError> {
        let Some(place) = place_of(letter) else {
            return Ok(None);
        };
        match self.askers.get(place) {
            Some(Some(asker)) => {
                let is_shared = asker.share().is_ok();
                self.text(if is_shared {
                    "dropped"
                } else {
                    "out of memory"
                })
            }
            _ => self.text("skipped"),
        }
    }

    // What is asked of the semaphore itself.
    fn of_semaphore(&self, words: &str) -> Result<Option<String>, AllocError> {
        let Some(semaphore) = &self.semaphore else {
            return Ok(None);
        };
        let number = match words {
            "free" => semaphore.available_permits(),
            "max" => semaphore.max(),
            "share max" => semaphore.share()?.max(),
            "share free" => semaphore.share()?.available_permits(),
            _ => {
                let is_shared = semaphore.share().is_ok();
                return self.text(if is_shared {
                    "dropped"
                } else {
                    "out of memory"
                });
            }
        };
        Ok(Some(number.to_string(self.alloc)?))
    }

    fn let_go(&mut self, name: &str) -> Result<Option<String>, AllocError> {
        match (place_of(name), name.parse::<usize>()) {
            (Some(place), _) => drop(take(&mut self.askers, place)),
            (None, Ok(place)) => drop(take(&mut self.permits, place)),
            (None, Err(_)) => return Ok(None),
        }
        self.text("")
    }

    fn cancel(&self, key: &str) -> Result<Option<String>, AllocError> {
        let Ok(key) = key.parse() else {
            return Ok(None);
        };
        match self.beside.step(LineStep::Cancel(key)) {
            LineReply::Left => self.text("left"),
            _ => self.text("another reply"),
        }
    }
}

impl<'s, L: Latch<LineCore>, B: Latch<LineCore>> Party for Asked<'s, L, B> {
    fn act(&mut self, words: &str) -> Result<Option<String>, AllocError> {
        match words {
            "asker" => return self.asker(),
            "free" | "max" | "share max" | "share free" | "share" => return self.of_semaphore(
                words,
            ),
            _ => {}
        }
        let Some((word, rest)) = words.split_once(' ') else {
            return Ok(None);
        };
        match word {
            "poll" => match place_of(rest) {
                Some(place) => self.poll(place),
                None => Ok(None),
            },
            "share" => self.share(rest),
            "drop" => self.let_go(rest),
            "cancel" => self.cancel(rest),
            "shares" => match rest.parse() {
                Ok(shares) => {
                    self.shares.set(shares);
                    self.text("")
                }
                Err(_) => Ok(None),
            },
            _ => Ok(None),
        }
    }

    fn end(&mut self) {
        self.askers.clear();
        self.permits.clear();
        self.semaphore = None;
    }
}

pub fn play<R: Wait + Copy>(
    rt: R,
    script: &Script<'_>,
    report: &mut Report<'_>,
) -> Result<(), AllocError> {
    let Some(permits) = script.number(0) else {
        return script.unread(report);
    };
    let permits = permits as usize;
    let shares = shares_at(script, 1);
    let Ok(latch) = Guarded::new(rt, script.alloc(), LineCore::new(script.alloc(), permits)) else {
        return script.over(report, "out of memory");
    };
    let beside = latch.share()?;
    let semaphore = noting(script.stage().log, &shares, latch, permits);
    played(script, report, &shares, beside, semaphore)
}

fn played<L: Latch<LineCore>, B: Latch<LineCore>>(
    script: &Script<'_>,
    report: &mut Report<'_>,
    shares: &Cell<u8>,
    beside: B,
    semaphore: Semaphore<L>,
) -> Result<(), AllocError> {
    let mut party = Asked {
        alloc: script.alloc(),
        solo: script.solo(),
        shares,
        beside,
        semaphore: Some(semaphore),
        askers: Vec::new(script.alloc()),
        permits: Vec::new(script.alloc()),
    };
    script.play_party(report, &mut party)
}
