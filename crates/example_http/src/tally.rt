//! How the connections of a crowd were answered.

const SERVED: &[u8] =
    b"HTTP/1.1 200 OK\r\ncontent-type: text/plain\r\ncontent-length: 8\r\nconnection: close\r\n\r\nat last\n";

const BUSY: &[u8] =
    b"HTTP/1.1 503 Service Unavailable\r\ncontent-type: text/plain\r\nretry-after: 1\r\ncontent-length: 5\r\nconnection: close\r\n\r\nbusy\n";

/// What came before the end of the connection.
#[derive(Clone, Copy)]
enum Answer {
    /// The whole page.
    Served,
    /// The whole 503.
    Busy,
    /// A first part of one of the two, or nothing.
    Broken,
    /// Anything else.
    Wrong,
}

impl Answer {
    fn of(came: &[u8]) -> Answer {
        if came == SERVED {
            Answer::Served
        } else if came == BUSY {
            Answer::Busy
        } else if SERVED.starts_with(came) || BUSY.starts_with(came) {
            Answer::Broken
        } else {
            Answer::Wrong
        }
    }
}

/// How many connections were answered how.
#[derive(Clone, Copy)]
pub struct Tally {
    served: u64,
    busy: u64,
    broken: u64,
    wrong: u64,
}

impl Tally {
    pub fn new() -> Tally {
        Tally {
            served: 0,
            busy: 0,
            broken: 0,
            wrong: 0,
        }
    }

    /// Counts a connection over which this came.
    pub fn note(&mut self, came: &[u8]) {
        let counter = match Answer::of(came) {
            Answer::Served => &mut self.served,
            Answer::Busy => &mut self.busy,
            Answer::Broken => &mut self.broken,
            Answer::Wrong => &mut self.wrong,
        };
        *counter = counter.saturating_add(1);
    }

    /// Prints how the connections were answered.
    pub fn report<R: Print>(self, rt: &R, connections: u64) -> anyhow::Result<()> {
        println!(rt;
            "{connections} requests: {} served, {} busy, {} broken, {} wrong",
            self.served, self.busy, self.broken, self.wrong
        )?;
        Ok(())
    }
}
