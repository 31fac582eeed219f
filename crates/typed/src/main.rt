// Reads bookings in text form from standard input, one after another, and writes the record of each to standard output. A booking ends before
// the next line that begins with a digit, or at the end of the input. That reading hands over the input and that what is written comes out is left
// to the system.
#![tactic(auto)]

ghost use Rattle.std.specs.Prelude.{◌≡◌, ◌+◌, ◌-◌, ◌<◌, ◌≤◌, not, ◌&&◌, length, take, drop, nat_lt, slice_index};
ghost use Rattle.io.specs.Counts.{IsPrefixLen};
ghost use Rattle.text.specs.Calls.{answer_up_to};
ghost use Rattle.typed.specs.Bookings.{parts, Ends};
ghost use Rattle.typed.specs.Taking.{may_go_on, TakesBlock};

use input::Got;
use refusal::report;
use slots::decode::RECORD;
use std::io::Read;
use text::{LONGEST, NEWLINE, Refused, read};

// kept: the system's numbers; no crate below the programs has to do with files.
const STDOUT_FILENO: i32 = 1;

const STDERR_FILENO: i32 = 2;

// The records of a block's bookings fit 65,536 bytes, and a block has room for more than a booking.
const BLOCK: usize = 1024;

// Whether a booking begins at i, behind another: a line begins there, with a digit.
fn begins(input: &[u8], i: usize) -> bool
    requires { (0 < i) × (i < length input.now) }
    ensures { result ≡ parts (slice_index input.now (i - 1)) (slice_index input.now i) }
{
    input[i - 1] == NEWLINE && matches!(input[i], b'0'..=b'9')
}

// Where the booking at `at` ends.
fn booking_end(input: &[u8], at: usize) -> usize
    requires { at < length input.now }
    ensures { Ends input.now at result }
{
    for i in at + 1..input.len() {
        if begins(input, i) {
            return i;
        }
    }
    input.len()
}

// Whether a booking from `at` to `end` may go on behind a block of n bytes: it ends with the block, which is not the last, and is not too long.
fn goes_on(at: usize, end: usize, n: usize, last: bool) -> bool
    requires { at ≤ end }
    ensures { result ≡ may_go_on at end n last }
{
    !last && n <= end && end - at <= LONGEST
}

// What taking a block came to: where what is left begins, the bytes of the records, the place of the first booking left, and why it is refused, if
// it is.
// kept: what is written stands in io's large buffer, of a fixed length, so how many of its bytes are used stands beside it
#[derive(Clone, Copy)]
struct Block {
    at: usize,
    len: usize,
    place: u64,
    refused: Option<Refused>,
}

// The records of a block's bookings, from a place on, up to the first that is refused. The last booking is left where it may go on.
fn take_block(input: &[u8], last: bool, first: u64, records: &mut [u8]) -> Block
    requires input_len_bound { length input.now ≤ 1024 }
    requires records_len { length records.old ≡ 65536 }
    ensures takes_block { TakesBlock input.now last first (take result.len records.new) result.at result.place (answer_up_to result.len result.refused) }
    ensures at_in_bounds { (result.at ≤ length input.now) × (result.len ≤ 65536) }
{
    let n = input.len();
    let mut len = 0;
    let mut place = first;
    let mut at = 0;
    // kept: a booking is as long as what it says, so the place goes on by where it ends
    while at < n {
        let end = booking_end(input, at);
        if goes_on(at, end, n, last) {
            return Block {
                at: at,
                len: len,
                place: place,
                refused: None,
            };
        }
        if let Err(refused) = read(&input[at..end], &mut records[len..]) {
            return Block {
                at: at,
                len: len,
                place: place,
                refused: Some(refused),
            };
        }
        len += RECORD;
        place = place.wrapping_add(1);
        at = end;
    }
    Block {
        at: at,
        len: len,
        place: place,
        refused: None,
    }
}

// Moves what stands in a block from `from` on to its start, and answers how many bytes that are.
fn keep(input: &mut [u8], from: usize) -> usize
    requires { from ≤ length input.old }
    ensures value { result ≡ length input.old - from }
    ensures input_after { take result input.new ≡ drop from input.old }
{
    input.copy_within(from.., 0);
    input.len() - from
}

// Reads behind the first `rest` bytes of a block, which stay, and answers how many bytes it has then.
fn fill<R: Read>(stdin: &mut R, input: &mut [u8], rest: usize) -> Got
    requires { rest ≤ length input.old }
    ensures prefix_len { IsPrefixLen result.len input.new }
    ensures rest_le_len { (rest ≤ result.len) × (take rest input.new ≡ take rest input.old) }
{
    let got = input::fill(stdin, &mut input[rest..]);
    Got {
        len: rest + got.len,
        ..got
    }
}

// Whether a block of n bytes is the last: it is not full, and no read failed.
fn ends_input(n: usize, failed: bool) -> bool
    ensures { result ≡ (not failed && nat_lt n 1024) }
{
    !failed && n < BLOCK
}

// Block after block, until the input ends or cannot be read, a booking is refused, or the records cannot be written.
// kept: the loops of drive, shown and typed differ in what is left of a block and in what is known of a run (`Ran`), which a closure would hide
fn run<R: Read>(stdin: &mut R) {
    let mut input = [0u8; BLOCK];
    let mut records = io::large_buffer();
    let mut rest = 0;
    let mut place: u64 = 1;
    for _ in 0..u64::MAX {
        let got = fill(stdin, &mut input, rest);
        let n = got.len;
        let last = ends_input(n, got.failed);
        let block = take_block(&input[..n], last, place, &mut records);
        if !io::write_all(STDOUT_FILENO, &records[..block.len]) {
            io::write_all(STDERR_FILENO, b"typed: the records cannot be written\n");
            return;
        }
        place = block.place;
        if block.refused.is_some() {
            report(place, block.refused);
            return;
        }
        if got.failed {
            io::write_all(STDERR_FILENO, b"typed: the input cannot be read\n");
            return;
        }
        if n < BLOCK {
            return;
        }
        rest = keep(&mut input, block.at);
    }
}

fn main(rt: HostRuntime) {
    run(&mut rt.stdin());
}
