//! A script and what it is played with.
ghost use Rattle.std.specs.Prelude.{◌≡◌, true};

use crate::command::{Command, Directive, command_of, directive_of};
use crate::copies::Copies;
use crate::handles::Handles;
use crate::lone::Lone;
use crate::party::{Nobody, Party, Reader, Unread};
use crate::plays::{Cloned, PartyAlone, Plays, Served};
use crate::report::Report;
use crate::step::Step;
use crate::turn::{Turned, turn};
use futures::task::Solo;
use std::alloc::{AllocError, Global};
use std::fmt::{Debug, Display};
use tests_support::clock::Hand;
use tests_support::run::is_woken;
use tests_support::script::Script as Plan;
use tests_support::service::{Scripted, Target};
use tests_support::story::Stage;
use tower_base::service::{Service, Steps};

/// A request of this number.
pub trait Requests<Request> {
    fn request(&self, number: u8) -> Request;
}

/// Requests that are numbers.
pub struct Numbers;

impl Requests<u8> for Numbers {
    fn request(&self, number: u8) -> u8 {
        number
    }
}

/// Requests whose clones and drops are noted, by this letter.
#[derive(Drop)]
pub struct Places<'a> {
    pub plan: &'a Plan<'a>,
    pub letter: char,
}

impl<'a> Requests<Target<'a>> for Places<'a> {
    fn request(&self, number: u8) -> Target<'a> {
        Target::new(self.plan, self.letter, number)
    }
}

/// A script. Its first line names a service and its parts; the steps after it are played.
#[derive(Drop)]
pub struct Script<'a> {
    pub(crate) alloc: Global,
    pub(crate) solo: &'a Solo,
    pub(crate) stage: &'a Stage<'a>,
    pub(crate) first: Step<'a>,
    pub(crate) rest: &'a [Step<'a>],
}

impl<'a> Script<'a> {
    /// The allocator.
    pub fn alloc(&self) -> Global {
        self.alloc
    }

    /// The task that polls.
    pub fn solo(&self) -> &'a Solo {
        self.solo
    }

    /// What the parts look at.
    pub fn stage(&self) -> &'a Stage<'a> {
        self.stage
    }

    /// A scripted service with this letter.
    pub fn service(&self, letter: char) -> Scripted<'a> {
        Scripted::new(&self.stage.script, letter)
    }

    /// A share of the clock.
    pub fn clock(&self) -> Hand<'a> {
        Hand::new(self.stage.log, &self.stage.moment)
    }

    // The first line up to a semicolon: the service and its parts.
    fn parts(&self) -> &'a str {
        match self.first.asked.split_once(';') {
            Some((parts, _)) => parts,
            None => self.first.asked,
        }
    }

    /// The word that names the service.
    pub fn name(&self) -> &'a str {
        match self.parts().split_once(' ') {
            Some((name, _)) => name,
            None => self.parts(),
        }
    }

    /// The word at this place after the service's name, from 0 on.
    pub fn word(&self, place: usize) -> Option<&'a str> {
        self.parts().split(' ').nth(place.saturating_add(1))
    }

    /// The number at this place after the service's name, from 0 on.
    pub fn number(&self, place: usize) -> Option<u64> {
        self.parts()
            .split(' ')
            .skip(1)
            .filter_map(|word| word.parse().ok())
            .nth(place)
    }

    /// Whether each word after the service's name is a number or one of these.
    pub fn knows(&self, words: &[&str]) -> bool {
        self.parts().split(' ').skip(1).all(|word| word.parse::<u64>().is_ok()
            || words.iter().any(|known| *known == word))
    }

    /// Whether this word comes after the service's name.
    pub fn has(&self, wanted: &str) -> bool {
        self.parts().split(' ').skip(1).any(|word| word == wanted)
    }

    /// The first line names no service that is known, or not all of its parts.
    pub fn unread(&self, report: &mut Report<'_>) -> Result<(), AllocError> {
        report.unread(&self.first)
    }

    /// The script went wrong as a whole, for this reason.
    pub fn wrong(&self, report: &mut Report<'_>, reason: &str) -> Result<(), AllocError> {
        report.refuse(&self.first, reason)
    }

    /// The script is over with its first line, whose answer this is.
    pub fn over(&self, report: &mut Report<'_>, answer: &str) -> Result<(), AllocError> {
        report.came(self.stage.log, &self.first, answer)?;
        for step in self.rest {
            match self.asked(report, step)? {
                Some(Command::End) => report.came(self.stage.log, step, "")?,
                Some(_) => report.refuse(step, "the script is over")?,
                None => {}
            }
        }
        Ok(())
    }

    // Changes what stands after the parts, before the service is made.
    pub(crate) fn set_up(&self, report: &mut Report<'_>) -> Result<(), AllocError> {
        for text in self.first.asked.split(';').skip(1) {
            let turned = match directive_of(text.trim()) {
                Some(change) => turn(self.alloc, self.stage, change)?,
                None => Turned::Unread,
            };
            if !matches!(turned, Turned::Done) {
                report.unread(&self.first)?;
            }
        }
        Ok(())
    }

    /// Plays the script by this service, whose requests are numbers.
    pub fn play<S>(&self, report: &mut Report<'_>, service: S) -> Result<(), AllocError>
    where
        S: Service<u8> + Clone,
        S::Response: Display,
        S::Error: Debug + Display,
        requires sound { S.sound service }
        requires clones { (x y : S) → S.is_clone x y → S.sound x → S.sound y }
    {
        self.played(report, service, false, &Numbers, &mut Nobody)
    }

    /// Plays the script by this service, with these requests, beside a party.
    pub fn play_with<S, Request: Drop, Q: Requests<Request>, P: Party>(
        &self,
        report: &mut Report<'_>,
        service: S,
        requests: &Q,
        party: &mut P,
    ) -> Result<(), AllocError>
    where
        S: Service<Request> + Clone,
        S::Response: Display,
        S::Error: Debug + Display,
        requires sound { S.sound service }
        requires clones { (x y : S) → S.is_clone x y → S.sound x → S.sound y }
    {
        self.played(report, service, false, requests, party)
    }

    /// Plays the script by this service, which may always be called: as it is, as a clone, and after each poll and each call.
    pub fn play_always<S>(&self, report: &mut Report<'_>, service: S) -> Result<(), AllocError>
    where
        S: Service<u8> + Clone,
        S::Response: Display,
        S::Error: Debug + Display,
        requires sound { S.sound service }
        requires clones { (x y : S) → S.is_clone x y → S.sound x → S.sound y }
        requires ready { S.ready service }
        requires cloned { (x y : S) → S.is_clone x y → S.ready y }
        requires polled { (old : S) (answer : _) (new : S) → S.polled old answer new → S.ready new }
        requires called { (old : S) (request : _) (future : S.Future) (new : S) → S.called old request future new → S.ready new }
    {
        self.played(report, service, true, &Numbers, &mut Nobody)
    }

    fn played<S, Request: Drop, Q: Requests<Request>, P: Party>(
        &self,
        report: &mut Report<'_>,
        service: S,
        always: bool,
        requests: &Q,
        party: &mut P,
    ) -> Result<(), AllocError>
    where
        S: Service<Request> + Clone,
        S::Response: Display,
        S::Error: Debug + Display,
        requires sound { S.sound service }
        requires clones { (x y : S) → S.is_clone x y → S.sound x → S.sound y }
        requires ready { always ≡ true → S.ready service }
        requires cloned { always ≡ true → (x y : S) → S.is_clone x y → S.ready y }
        requires polled { always ≡ true → (old : S) (answer : _) (new : S) → S.polled old answer new → S.ready new }
        requires called { always ≡ true → (old : S) (request : Request) (future : S.Future) (new : S) → S.called old request future new → S.ready new }
    {
        let handles: Handles<S, Request> = Handles::new(self.alloc, always, service)?;
        let reader = Unread;
        let mut cloned = Cloned {
            always,
            served: Served {
                alloc: self.alloc,
                always,
                handles,
                requests,
                reader: &reader,
            },
        };
        self.each_step(report, &mut cloned, party)
    }

    /// Plays the script by this service, which has no clones.
    pub fn play_alone<S, Request: Drop, Q: Requests<Request>>(
        &self,
        report: &mut Report<'_>,
        service: S,
        requests: &Q,
    ) -> Result<(), AllocError>
    where
        S: Service<Request>,
        S::Response: Display,
        S::Error: Debug + Display,
        requires { S.sound service }
    {
        self.play_alone_with(report, service, requests, &mut Nobody)
    }

    /// Plays the script by this service, which has no clones, beside a party.
    pub fn play_alone_with<S, Request: Drop, Q: Requests<Request>, P: Party>(
        &self,
        report: &mut Report<'_>,
        service: S,
        requests: &Q,
        party: &mut P,
    ) -> Result<(), AllocError>
    where
        S: Service<Request>,
        S::Response: Display,
        S::Error: Debug + Display,
        requires { S.sound service }
    {
        self.play_read_with(report, service, requests, &Unread, party)
    }

    /// Plays the script by this service, which has no clones, beside a party. Words that the reader reads are asked of the service.
    pub fn play_read_with<S, Request: Drop, Q: Requests<Request>, V: Reader<S>, P: Party>(
        &self,
        report: &mut Report<'_>,
        service: S,
        requests: &Q,
        reader: &V,
        party: &mut P,
    ) -> Result<(), AllocError>
    where
        S: Service<Request>,
        S::Response: Display,
        S::Error: Debug + Display,
        requires { S.sound service }
    {
        let handles: Handles<S, Request> = Handles::new(self.alloc, false, service)?;
        let mut served = Served {
            alloc: self.alloc,
            always: false,
            handles,
            requests,
            reader,
        };
        self.each_step(report, &mut served, party)
    }

    /// Plays the script by a party alone.
    pub fn play_party<P: Party>(
        &self,
        report: &mut Report<'_>,
        party: &mut P,
    ) -> Result<(), AllocError> {
        let mut alone = PartyAlone { alloc: self.alloc };
        self.each_step(report, &mut alone, party)
    }

    // Plays all steps.
    fn each_step<A: Plays<P>, P>(
        &self,
        report: &mut Report<'_>,
        answers: &mut A,
        party: &mut P,
    ) -> Result<(), AllocError>
        requires { A.sound answers.old }
    {
        report.came(self.stage.log, &self.first, "")?;
        for step in self.rest {
            let Some(command) = self.asked(report, step)? else {
                continue;
            };
            let answer = match command {
                Command::Count(text) => Some(report.count(text)?),
                Command::Directive(change) => self.turned(change)?,
                _ => answers.answer(self.solo, command, step.asked, party)?,
            };
            match answer {
                Some(answer) => self.came(report, step, answer.as_str())?,
                None => report.unread(step)?,
            }
        }
        Ok(())
    }

    /// Plays the script by a value that is only cloned and dropped.
    pub fn play_copies<T: Clone + Drop>(
        &self,
        report: &mut Report<'_>,
        value: T,
    ) -> Result<(), AllocError> {
        let mut copies = Copies::new(self.alloc, value)?;
        self.play_party(report, &mut copies)
    }

    /// Plays the script by a future, whose number is 0.
    pub fn play_future<F, A, E>(&self, report: &mut Report<'_>, future: F) -> Result<(), AllocError>
    where
        F: Steps<Output = Result<A, E>>,
        A: Display + Drop,
        E: Debug + Display + Drop,
        requires { F.can_poll future }
    {
        let mut lone = Lone::new(self.alloc, self.solo, future);
        self.play_party(report, &mut lone)
    }

    // What the line asks, if anything.
    fn asked(
        &self,
        report: &mut Report<'_>,
        step: &Step<'a>,
    ) -> Result<Option<Command<'a>>, AllocError> {
        if step.is_comment() {
            report.aside(step.asked)?;
            return Ok(None);
        }
        let command = command_of(step.asked);
        if command.is_none() {
            report.unread(step)?;
        }
        Ok(command)
    }

    // Takes what came of the line. If the log is quiet, it notes where a poll was pending and its task was woken.
    fn came(
        &self,
        report: &mut Report<'_>,
        step: &Step<'_>,
        answer: &str,
    ) -> Result<(), AllocError> {
        let log = self.stage.log;
        if answer == "pending" && log.is_quiet() && is_woken(self.solo) {
            log.note("woken");
        }
        report.came(log, step, answer)
    }

    // Makes the change and tells what came of it, if its words can be read.
    fn turned(&self, change: Directive<'_>) -> Result<Option<String>, AllocError> {
        match turn(self.alloc, self.stage, change)? {
            Turned::Done => Ok(Some(String::new(self.alloc))),
            Turned::Skipped => Ok(Some("skipped".to_string(self.alloc)?)),
            Turned::Unread => Ok(None),
        }
    }
}
