//! Files read piece by piece, each of whole lines.

use memchr::memrchr;
use std::alloc::{AllocError, Global};
use std::io;
use std::io::{ErrorKind, Read};

/// How many bytes there is room for at first; there is more where a line is longer.
const ROOM: usize = 256 * 1024;

/// What was read of a file and not yet passed.
#[derive(Drop)]
pub(crate) struct LineBuffer {
    room: Vec<u8>,
    filled: usize,
    /// How many bytes of it are whole lines; all where the file has ended.
    whole: usize,
    /// The byte that ends lines.
    end: u8,
    is_ended: bool,
}

impl LineBuffer {
    /// Of no file, and with no room. Lines end by this byte.
    pub fn new(alloc: Global, end: u8) -> LineBuffer {
        LineBuffer {
            room: Vec::new(alloc),
            filled: 0,
            whole: 0,
            end,
            is_ended: false,
        }
    }

    /// Forgets the file.
    pub fn clear(&mut self) {
        self.filled = 0;
        self.whole = 0;
        self.is_ended = false;
    }

    /// Whether the file was read to its end.
    pub fn is_ended(&self) -> bool {
        self.is_ended
    }

    /// What was read and not yet passed.
    pub fn bytes(&self) -> &[u8] {
        &self.room[..self.filled.min(self.room.len())]
    }

    /// What was read of whole lines; all that was where the file has ended.
    pub fn whole_lines(&self) -> &[u8] {
        &self.room[..self.whole.min(self.room.len())]
    }

    /// Makes more room, where there is none left.
    fn make_room(&mut self) -> Result<(), AllocError> {
        let len = self.room.len();
        if self.filled >= len {
            self.room.resize(len.saturating_mul(2).max(ROOM), 0)?;
        }
        Ok(())
    }

    /// Reads once more, where the file has not ended.
    fn read_once<R: Read>(&mut self, file: &mut R) -> io::Result<()> {
        self.make_room()?;
        let filled = self.filled.min(self.room.len());
        match file.read(&mut self.room[filled..]) {
            Ok(0) => {
                self.is_ended = true;
                self.whole = filled;
            }
            Ok(read) => {
                self.filled = filled + read;
                if let Some(last) = memrchr(self.end, &self.room[filled..self.filled]) {
                    self.whole = filled + last + 1;
                }
            }
            Err(error) if error.kind() == ErrorKind::Interrupted => {}
            Err(error) => return Err(error),
        }
        Ok(())
    }

    /// Reads until so many bytes and a whole line are there, or the file ends.
    pub fn fill<R: Read>(&mut self, file: &mut R, least: usize) -> io::Result<()> {
        for _ in 0..u64::MAX {
            let is_enough = self.filled >= least && !self.whole_lines().is_empty();
            if self.is_ended || is_enough {
                break;
            }
            self.read_once(file)?;
        }
        Ok(())
    }

    /// Passes so many bytes of the front, and reads on until a whole line is there, or the file ends.
    pub fn pass<R: Read>(&mut self, file: &mut R, count: usize) -> io::Result<()> {
        let filled = self.filled.min(self.room.len());
        let count = count.min(filled);
        self.room.copy_within(count..filled, 0);
        self.filled = filled - count;
        self.whole = self.whole.saturating_sub(count);
        self.read_once(file)?;
        self.fill(file, 0)
    }
}
