//! A discovery that follows a list, and a poll of one.
ghost use Rattle.std.specs.Prelude.{⊤};

use futures::task::{Context, Poll, Solo};
use tests_support::script::Script;
use tests_support::service::Scripted;
use tower_limit::discover::{Change, Discover};

/// What a poll finds.
#[derive(Clone, Copy, Debug, PartialEq, Eq)]
pub enum Find {
    /// A service of this letter under this key.
    Insert(u8, char),
    Remove(u8),
    Broken(u8),
    /// Nothing yet.
    Busy,
}

/// Finds one of its list at each poll, and then ends. It notes its polls.
pub struct Finds<'a> {
    script: &'a Script<'a>,
    list: &'a [Find],
    at: usize,
}

impl<'a> Finds<'a> {
    pub fn new(script: &'a Script<'a>, list: &'a [Find]) -> Finds<'a> {
        Finds {
            script,
            list,
            at: 0,
        }
    }
}

impl<'a> Discover for Finds<'a> {
    type Key = u8;

    type Service = Scripted<'a>;

    type Error = u8;

    ghost discovered = { λ _ _ _. ⊤ };

    fn poll_discover(
        &mut self,
        cx: &mut Context<'_>,
    ) -> Poll<Option<Result<Change<u8, Scripted<'a>>, u8>>> {
        let Some(find) = self.list.get(self.at).copied() else {
            self.script.log.note("found the end");
            return Poll::Ready(None);
        };
        self.at = self.at.saturating_add(1);
        self.script.log.note(format_args!("found {find:?}"));
        match find {
            Find::Insert(key, letter) => {
                let service = Scripted::new(self.script, letter);
                Poll::Ready(Some(Ok(Change::Insert(key, service))))
            }
            Find::Remove(key) => Poll::Ready(Some(Ok(Change::Remove(key)))),
            Find::Broken(error) => Poll::Ready(Some(Err(error))),
            Find::Busy => cx.yield_now(),
        }
    }
}

impl<'a> Drop for Finds<'a> {
    fn drop(self) {
        self.script.log.note("finds dropped");
        let Finds {
            script: _,
            list: _,
            at: _,
        } = self;
    }
}

/// One poll of a discovery.
pub fn found<D: Discover>(
    solo: &Solo,
    discovery: &mut D,
) -> Poll<Option<Result<Change<D::Key, D::Service>, D::Error>>>
    requires { D.sound discovery.old }
    ensures discovered { D.discovered discovery.old result discovery.new }
    ensures sound { D.sound discovery.new }
{
    let mut cx = solo.begin();
    let answer = discovery.poll_discover(&mut cx);
    cx.end(&answer);
    answer
}
