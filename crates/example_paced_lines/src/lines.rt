//! Lines of bytes.

use crate::fault::Fault;
use std::alloc::Global;
use std::io::{BufRead, BufReader, ErrorKind, Read};

/// A reader of lines. Each line has its line feed, which the last one may lack.
#[derive(Drop)]
pub struct Lines<R> {
    alloc: Global,
    reader: BufReader<R>,
}

impl<R: Read + Drop> Lines<R> {
    pub fn new(alloc: Global, reader: R) -> Result<Lines<R>, Fault> {
        let reader = BufReader::new(alloc, reader).map_err(|_| Fault::Memory)?;
        Ok(Lines { alloc, reader })
    }

    /// Returns the next line, or `None` at the end.
    pub fn next_line(&mut self) -> Result<Option<Vec<u8>>, Fault> {
        let mut line = Vec::new(self.alloc);
        match self.reader.read_until(b'\n', &mut line) {
            Ok(0) => Ok(None),
            Ok(_) => Ok(Some(line)),
            Err(error) if error.kind() == ErrorKind::OutOfMemory => Err(Fault::Memory),
            Err(_) => Err(Fault::CannotRead),
        }
    }
}
