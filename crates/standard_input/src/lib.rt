// Standard input, read whole or up to one byte more than a program takes.

#![tactic(auto)]

ghost use Rattle.std.specs.Prelude.{◌≡◌, ◌≤◌, ◌<ℤ◌, length, take, pos};
ghost use Rattle.std.specs.Io.{ReadsAtMost};
ghost use Rattle.std.specs.Io.KnownBytes.{Consumes, IsAtEnd, ReadConsumes};

use std::io::{Cursor, Error, ErrorKind, Read, Result, Write};

// How many bytes were read, and what the last call of `read` answered: 0 at the input's end, and below 0 at a failure, where it is the system's number of
// the error with a minus before it. One number: `running_alone`'s `shown_as` and `failed-shows-nothing` are of it.
#[derive(Clone, Copy)]
pub struct Seen {
    pub read: usize,
    pub last: isize,
}

// The system's numbers of a call that a signal cut short, and of an error that is not the system's.
const EINTR: i32 = 4;

const EIO: i32 = 5;

// One call of `read`, made again where a signal cut it short.
fn read_some<R: Read>(reader: &mut R, room: &mut [u8]) -> Result<usize>
    ensures bound { ReadsAtMost result room.new }
    ensures bytes { ReadConsumes (R.remaining reader.old) (R.remaining reader.new) result room.new }
{
    for _ in 0..1000 {
        match reader.read(room) {
            Err(e) if e.kind() == ErrorKind::Interrupted => {}
            got => return got,
        }
    }
    Err(Error::from_raw_os_error(EINTR))
}

// What a failure is told by.
fn number_of(e: &Error) -> isize
    ensures { result <ℤ pos 0 }
{
    match e.raw_os_error() {
        Some(code) if code > 0 => -(code as isize),
        _ => -(EIO as isize),
    }
}

// The failure that `last` tells of.
pub fn failure(last: isize) -> Error {
    Error::from_raw_os_error(i32::try_from(last.wrapping_neg()).unwrap_or(EIO))
}

// Says on standard error that something of a program failed, and why in the system's words alone.
pub fn tell(rt: &impl Eprint, program: &str, what: &str, why: &Error) {
    let mut said = Cursor::new([0u8; 256]);
    let _ = write!(said, "{why}");
    let text = said.into_inner();
    let _ = match str::from_utf8(&text)
        .ok()
        .and_then(|it| it.split_once(" (os error "))
    {
        Some((words, _)) => eprintln!(rt; "{program}: {what}: {words}"),
        None => eprintln!(rt; "{program}: {what}: {why}"),
    };
}

// The reader's bytes up to their end, to a failure, or until the buffer is full.
pub fn read_input<R: Read>(reader: &mut R, buffer: &mut [u8]) -> Seen
    ensures bound { result.read ≤ length buffer.new }
    ensures bytes { Consumes (R.remaining reader.old) (R.remaining reader.new) (take result.read buffer.new) }
    ensures end { result.last ≡ pos 0 → IsAtEnd (R.remaining reader.new) }
{
    let mut read = 0;
    // `read_to_end` wants a `Vec`, and there is no heap; `io::copy` does not say what was read before a failure.
    while read < buffer.len() {
        match read_some(reader, &mut buffer[read..]) {
            Ok(0) => return Seen { read, last: 0 },
            Ok(more) => read += more,
            Err(e) => {
                let last = number_of(&e);
                return Seen { read, last };
            }
        }
    }
    Seen { read, last: 1 }
}
