//! Readers and writers that fail.

use std::alloc::Global;
use std::io;
use std::io::{ErrorKind, Read, Write};

/// A writer that takes so many bytes and then fails, and whose flush may fail too.
#[derive(Drop)]
pub struct Narrow {
    pub taken: Vec<u8>,
    pub room: usize,
    pub flushes: bool,
}

impl Write for Narrow {
    fn write(&mut self, bytes: &[u8]) -> io::Result<usize> {
        if self.taken.len() >= self.room || bytes.is_empty() {
            return Err(io::Error::from(ErrorKind::BrokenPipe));
        }
        self.taken.extend_from_slice(&bytes[..1])?;
        Ok(1)
    }

    fn flush(&mut self) -> io::Result<()> {
        if self.flushes {
            Ok(())
        } else {
            Err(io::Error::from(ErrorKind::BrokenPipe))
        }
    }
}

/// A writer that takes so many bytes.
pub fn with_room(alloc: Global, room: usize) -> Narrow {
    Narrow {
        taken: Vec::new(alloc),
        room,
        flushes: true,
    }
}

/// A writer that has room, but whose flush fails.
pub fn unflushed(alloc: Global) -> Narrow {
    Narrow {
        taken: Vec::new(alloc),
        room: 100,
        flushes: false,
    }
}

/// A reader whose every read fails.
#[derive(Drop)]
pub struct Broken;

impl Read for Broken {
    fn read(&mut self, _bytes: &mut [u8]) -> io::Result<usize> {
        Err(io::Error::from(ErrorKind::BrokenPipe))
    }
}
