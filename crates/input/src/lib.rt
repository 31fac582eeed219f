// An input, read by blocks. What the system hands over is assumed to be the input; no contract can say what it is.
#![tactic(auto)]

ghost use Rattle.std.specs.Prelude.{◌≤◌, ◌≡◌};
ghost use Rattle.io.specs.Counts.{IsPrefixLen};
ghost use Rattle.input.specs.Pieces.{whole_part};

use std::io::Read;

// How many bytes were read, and whether reading ended there because a read failed.
// kept: no Result, for the bytes before a failed read are answered too
#[derive(Clone, Copy)]
pub struct Got {
    pub len: usize,
    pub failed: bool,
}

// Reads until buf is full, the input ends or a read fails, and answers how many bytes it put at the start of buf. A read that a signal
// interrupts before it moves a byte counts as one that failed.
pub fn fill<R: Read>(input: &mut R, buf: &mut [u8]) -> Got
    ensures { IsPrefixLen result.len buf.new }
{
    let mut done = 0;
    // kept: a read gives as many bytes as it likes, so the place goes on by what came; no method of the library says how many came before a failure
    while done < buf.len() {
        match input.read(&mut buf[done..]) {
            Ok(0) => {
                return Got {
                    len: done,
                    failed: false,
                };
            }
            Ok(more) => done += more,
            Err(_) => {
                return Got {
                    len: done,
                    failed: true,
                };
            }
        }
    }
    Got {
        len: done,
        failed: false,
    }
}

// How many of the bytes that were read are to be answered, where the input comes in pieces: all of them, for the last piece of an input may be
// short; but only whole pieces where a read failed. A size of 0 has no pieces.
pub fn whole(got: Got, size: usize) -> usize
    ensures value { result ≡ whole_part got.failed size got.len }
    ensures upper_bound { result ≤ got.len }
{
    if !got.failed {
        return got.len;
    }
    if size == 0 {
        return 0;
    }
    got.len - got.len % size
}
