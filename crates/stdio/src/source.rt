// Where the bytes of standard input come from: one read at a time, of what is there at once.
ghost use Rattle.std.specs.Prelude.{◌≤◌, length, IfOk};

use std::io::{ErrorKind, Read};

// A read failed: nothing is known of what comes after it.
#[derive(Clone, Copy)]
pub struct ReadError;

pub trait Source {
    // How many bytes of the room one read filled, none where the input ends.
    fn read(&mut self, room: &mut [u8]) -> Result<usize, ReadError>
        ensures { IfOk result (λ count. count ≤ length room.new) };
}

// A reader of std, as `stdin()` of the runtime: a read that a signal interrupts is gone on with.
#[derive(Drop)]
pub struct Reader<R> {
    reader: R,
}

impl<R: Read> Reader<R> {
    pub fn new(reader: R) -> Reader<R> {
        Reader { reader }
    }
}

impl<R: Read> Source for Reader<R> {
    fn read(&mut self, room: &mut [u8]) -> Result<usize, ReadError> {
        for _ in 0..u64::MAX {
            match self.reader.read(room) {
                Ok(count) => return Ok(count),
                Err(e) if e.kind() == ErrorKind::Interrupted => {}
                Err(_) => return Err(ReadError),
            }
        }
        Err(ReadError)
    }
}

// Standard input for a function that C calls, which can have no runtime: a byte at a time. A read that fails counts as the end of the input, since
// `read_full` says no more.
#[derive(Clone, Copy)]
pub struct Bytewise {
    pub fd: i32,
}

impl Source for Bytewise {
    fn read(&mut self, room: &mut [u8]) -> Result<usize, ReadError> {
        if room.is_empty() {
            return Ok(0);
        }
        Ok(io::read_full(self.fd, &mut room[..1]))
    }
}
