//! What answers the lines of a script: the handles of a service and their futures, beside a party, or a party alone.
ghost use Rattle.std.specs.Prelude.{◌≡◌, ⊤, true};

use crate::command::Command;
use crate::handles::Handles;
use crate::party::{Party, Reader};
use crate::script::Requests;
use futures::task::Solo;
use std::alloc::{AllocError, Global};
use std::fmt::{Debug, Display};
use tower_base::service::Service;

/// What answers lines, beside a party, whose words are those that it can't read.
pub(crate) trait Plays<P> {
    // It holds before each line.
    ghost sound: { Self → Type 0 } = { λ _. ⊤ };

    /// Does what a line asks and tells its answer. There is none if it can't be read.
    fn answer(
        &mut self,
        solo: &Solo,
        command: Command<'_>,
        words: &str,
        party: &mut P,
    ) -> Result<Option<String>, AllocError>
        requires { sound self.old }
        ensures { sound self.new };
}

/// Nothing but the party.
#[derive(Drop)]
pub(crate) struct PartyAlone {
    pub(crate) alloc: Global,
}

impl<P: Party> Plays<P> for PartyAlone {
    fn answer(
        &mut self,
        _solo: &Solo,
        command: Command<'_>,
        words: &str,
        party: &mut P,
    ) -> Result<Option<String>, AllocError> {
        if matches!(command, Command::End) {
            party.end();
            return Ok(Some(String::new(self.alloc)));
        }
        party.act(words)
    }
}

/// The handles of a service, with its requests, and what more is read of it.
pub(crate) struct Served<'q, S: Service<Request>, Request, Q, V> {
    pub(crate) alloc: Global,
    pub(crate) always: bool,
    pub(crate) handles: Handles<S, Request>,
    pub(crate) requests: &'q Q,
    pub(crate) reader: &'q V,
}

impl<'q, S: Service<Request>, Request: Drop, Q, V> Drop for Served<'q, S, Request, Q, V> {
    fn drop(self) {
        let Served {
            alloc: _,
            always: _,
            handles,
            requests: _,
            reader: _,
        } = self;
        drop(handles);
    }
}

impl<'q, S, Request, Q, V, P> Plays<P> for Served<'q, S, Request, Q, V>
where
    S: Service<Request>,
    S::Response: Display,
    S::Error: Debug + Display,
    Request: Drop,
    Q: Requests<Request>,
    V: Reader<S>,
    P: Party,
{
    ghost sound = { λ s. (s.always ≡ true → (old : S) (answer : _) (new : S) → S.polled old answer new → S.ready new) × (s.always ≡ true → (old : S) (request : Request) (future : S.Future) (new : S) → S.called old request future new → S.ready new) };

    fn answer(
        &mut self,
        solo: &Solo,
        command: Command<'_>,
        words: &str,
        party: &mut P,
    ) -> Result<Option<String>, AllocError> {
        let answer = match command {
            Command::Poll(handle) => self.handles.poll(solo, self.always, handle)?,
            Command::Call(handle, number) => {
                let request = self.requests.request(number);
                self.handles.call(self.always, handle, request)?
            }
            Command::Future(number) => self.handles.future(solo, number)?,
            Command::DropHandle(handle) => self.handles.drop_handle(handle).to_string(self.alloc)?,
            Command::DropFuture(number) => self.handles.drop_future(number).to_string(self.alloc)?,
            Command::End => {
                self.handles.end();
                party.end();
                String::new(self.alloc)
            }
            Command::Other(_) => {
                let read = self.handles.read(self.reader, words)?;
                return if read.is_some() {
                    Ok(read)
                } else {
                    party.act(words)
                };
            }
            Command::Clone(_) | Command::Count(_) | Command::Directive(_) => return Ok(None),
        };
        Ok(Some(answer))
    }
}

/// The handles of a service that has clones.
pub(crate) struct Cloned<'q, S: Service<Request>, Request, Q, V> {
    pub(crate) always: bool,
    pub(crate) served: Served<'q, S, Request, Q, V>,
}

impl<'q, S: Service<Request>, Request: Drop, Q, V> Drop for Cloned<'q, S, Request, Q, V> {
    fn drop(self) {
        let Cloned { always: _, served } = self;
        drop(served);
    }
}

impl<'q, S, Request, Q, V, P> Plays<P> for Cloned<'q, S, Request, Q, V>
where
    S: Service<Request> + Clone,
    S::Response: Display,
    S::Error: Debug + Display,
    Request: Drop,
    Q: Requests<Request>,
    V: Reader<S>,
    P: Party,
{
    ghost sound = { λ c. ⟦<Served<'q, S, Request, Q, V> as Plays<P>>⟧.sound c.served × ((x y : S) → S.is_clone x y → S.sound x → S.sound y) × (c.always ≡ true → (x y : S) → S.is_clone x y → S.ready y) };

    fn answer(
        &mut self,
        solo: &Solo,
        command: Command<'_>,
        words: &str,
        party: &mut P,
    ) -> Result<Option<String>, AllocError> {
        if let Command::Clone(handle) = command {
            return Ok(Some(self.served.handles.copy(self.always, handle)?));
        }
        self.served.answer(solo, command, words, party)
    }
}
