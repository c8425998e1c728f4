// Input read whole, for the programs: the end of the input is told from a read that fails, and a read that was interrupted or found
// nothing ready is made again. Which bytes the system gives no contract can say.

#![tactic(auto)]

ghost use Rattle.std.specs.Prelude.{◌≡◌, ◌⊎◌, IsTrue, length, take};
ghost use Rattle.std.specs.Io.KnownBytes.{Consumes, IsAtEnd};
ghost use Rattle.input.specs.Reads.{answered, errno, number_of, IsPrefixLen, Passes, Says};

use std::io;
use std::io::Read;
use std::thread::yield_now;
use std::time::Clock;

// errno where a call was interrupted, and where nothing was ready (Linux).
const EINTR: i32 = 4;

const EAGAIN: i32 = 11;

// What a read says of the input.
#[derive(Clone, Copy)]
enum Next {
    More,
    End,
    Later,
    Failed,
}

// How many bytes were read, and whether they are all of the input that there was room for: each says something without the other.
#[derive(Clone, Copy)]
pub struct Input {
    pub count: usize,
    pub whole: bool,
}

// A call that failed by this errno may be made again: it was interrupted, or nothing was ready.
fn passes(error: i32) -> bool
    ensures { Passes error result }
{
    matches!(error, EINTR | EAGAIN)
}

// The errno of an error, 0 where it has none.
fn number(error: &io::Error) -> i32
    ensures { result ≡ number_of error.now }
{
    error.raw_os_error().unwrap_or(0)
}

// By what a read answered, and errno where it failed.
fn after(read: &io::Result<usize>) -> Next
    ensures { Says (answered read.now) (errno read.now) result }
{
    match read {
        Ok(0) => Next::End,
        Ok(_) => Next::More,
        Err(error) if passes(number(error)) => Next::Later,
        Err(_) => Next::Failed,
    }
}

// Lets others run, and gives the second that it is now, 0 where the clock cannot be read.
fn pause(clock: &impl Clock) -> u64 {
    yield_now();
    clock.since_1970().map_or(0, |time| time.as_secs())
}

// Reads until the buffer is full, the input ends, a read fails, or no byte has come for a minute. Gives how many bytes stand at the start
// of the buffer, and whether they are all of the input that there is room for. The turns only bound the loop.
// Where it is known what the reader has left, they are the first of it.
pub fn read_whole<C: Clock, R: Read>(clock: &C, reader: &mut R, buf: &mut [u8]) -> Input
    ensures counted { IsPrefixLen result.count buf.new }
    ensures bytes { Consumes (R.remaining reader.old) (R.remaining reader.new) (take result.count buf.new) }
    ensures end { IsTrue result.whole → (result.count ≡ length buf.new) ⊎ IsAtEnd (R.remaining reader.new) }
{
    let mut count = 0;
    let mut second = 0;
    let mut patience: u64 = 60;
    for _ in 0..1000000000000u64 {
        if count == buf.len() {
            return Input { count, whole: true };
        }
        let read = reader.read(&mut buf[count..]);
        let next = after(&read);
        count += read.unwrap_or(0);
        match next {
            Next::More => patience = 60,
            Next::End => return Input { count, whole: true },
            Next::Failed => return Input {
                count,
                whole: false,
            },
            Next::Later => {
                let now = pause(clock);
                if now != second {
                    if patience == 0 {
                        return Input {
                            count,
                            whole: false,
                        };
                    }
                    patience -= 1;
                    second = now;
                }
            }
        }
    }
    Input {
        count,
        whole: false,
    }
}
