//! What the program is asked for.

use crate::answer::Failure;
use crate::connection::{OneStack, Talk, serve};
use crate::crowd::crowds;
use crate::page::Page;
use crate::pipe::Pipe;
use hyper::body::Incoming;
use hyper::{Request, Response};
use std::alloc::AllocGlobal;
use std::random::RandomSource;
use std::rt::{self, Env};
use std::sync::Wait;
use std::{env, io};
use tokio::io::{AsyncRead, AsyncWrite};
use tower::Service;
use tower_time::ClockLoop;

/// The connections whose requests are answered.
#[derive(Clone, Copy)]
pub enum Connections {
    /// One over standard input and output.
    Standard,
    /// So many in memory, of which one read or write may fail.
    Crowd { connections: u32, fault: u32 },
}

impl Connections {
    /// The connections that the program's arguments ask for.
    pub fn asked<R: Env + AllocGlobal>(rt: &R) -> io::Result<Connections> {
        let mut words = env::args(rt)?.skip(1);
        match words.next() {
            Some(word) if word.as_str() == "crowd" => Ok(Connections::Crowd {
                connections: number(words.next()),
                fault: number(words.next()),
            }),
            _ => Ok(Connections::Standard),
        }
    }

    /// How many requests may be with the routes at once.
    pub fn limit(self) -> usize {
        match self {
            Connections::Standard => 64,
            Connections::Crowd { .. } => 5,
        }
    }
}

fn number(word: Option<String>) -> u32 {
    let Some(word) = word else {
        return 0;
    };
    match word.as_str().parse() {
        Ok(number) => number,
        Err(_) => 0,
    }
}

/// Answers the requests of the connections by the stack.
pub fn run<R, Q, T, S>(
    rt: &R,
    tasks: &mut ClockLoop<Q>,
    stream: T,
    stack: S,
    connections: Connections,
) -> anyhow::Result<()>
where
    R: Wait + RandomSource + AllocGlobal + Print,
    Q: rt::Clock + Copy,
    T: AsyncRead + AsyncWrite + From<Pipe>,
    S: Service<Request<Incoming<T>>, Response = Response<Page>, Error = Failure> + Clone,
    requires sound { S.sound stack }
    requires clones { (old new : S) → S.is_clone old new → S.sound old → S.sound new }
{
    match connections {
        Connections::Standard => {
            serve(rt, tasks, stream, stack)??;
            Ok(())
        }
        Connections::Crowd { connections, fault } => {
            let host = OneStack::new(stack);
            let (connections, fault) = (u64::from(connections), u64::from(fault));
            crowds::<R, Q, T, Talk<T, S>, OneStack<S>>(rt, tasks, &host, connections, fault)
        }
    }
}
