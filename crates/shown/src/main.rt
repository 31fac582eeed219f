// Reads records from standard input, one after another, and writes the text of each to standard output. That reading hands over the input and
// that what is written comes out is left to the system.
#![tactic(auto)]

ghost use Rattle.std.specs.Prelude.{◌≡◌, ◌+◌, ◌-◌, ◌≤◌, length, take, MatchResult, IfOk};
ghost use Rattle.text.specs.Calls.{wrote, refusal_of, answer_up_to};
ghost use Rattle.shown.specs.Showing.{records_of, ShowsOne, Shows};

use input::{fill, whole};
use refusal::report;
use slots::decode::RECORD;
use std::io::Read;
use text::{Refused, write};

// kept: the system's numbers; no crate below the programs has to do with files.
const STDOUT_FILENO: i32 = 1;

const STDERR_FILENO: i32 = 2;

// Records are read in blocks of 384: their texts fit 65,536 bytes.
const BLOCK: usize = 24576;

// Puts the text of a record behind the first `len` bytes of a text, and answers where it ends.
fn show_record(bytes: &[u8], text: &mut [u8], len: usize) -> Result<usize, Refused>
    requires { len + 168 ≤ length text.old }
    ensures shows_one { MatchResult result (λ end. ShowsOne bytes.now (take len text.old) (take end text.new) (wrote (end - len))) (λ e. ShowsOne bytes.now (take len text.old) (take len text.new) (refusal_of e)) }
    ensures len_bound { IfOk result (λ end. (len ≤ end) × (end ≤ len + 168)) }
{
    let n = write(bytes, &mut text[len..])?;
    Ok(len + n)
}

// What showing a block came to: the bytes of the text, the place of the record behind those shown, and why it is refused, if it is.
// kept: what is written stands in io's large buffer, of a fixed length, so how many of its bytes are used stands beside it
#[derive(Clone, Copy)]
struct Block {
    len: usize,
    place: u64,
    refused: Option<Refused>,
}

// The texts of a block's records, from a place on, up to the first that is refused. The last record may be short.
fn show_block(input: &[u8], first: u64, text: &mut [u8]) -> Block
    requires input_len_bound { length input.now ≤ 24576 }
    requires text_len { length text.old ≡ 65536 }
    ensures shows { Shows (records_of input.now) first (take result.len text.new) result.place (answer_up_to result.len result.refused) }
    ensures len_bound { result.len ≤ 65536 }
{
    let mut len = 0;
    let mut place = first;
    for record in input.chunks(RECORD) {
        match show_record(record, text, len) {
            Ok(end) => len = end,
            Err(refused) => {
                return Block {
                    len: len,
                    place: place,
                    refused: Some(refused),
                };
            }
        }
        place = place.wrapping_add(1);
    }
    Block {
        len: len,
        place: place,
        refused: None,
    }
}

// Block after block, until the input ends or cannot be read, a record is refused, or the text cannot be written.
// kept: the loops of drive, shown and typed differ in what is left of a block and in what is known of a run (`Ran`), which a closure would hide
fn run<R: Read>(stdin: &mut R) {
    let mut input = [0u8; BLOCK];
    let mut text = io::large_buffer();
    let mut place: u64 = 1;
    for _ in 0..u64::MAX {
        let got = fill(stdin, &mut input);
        let n = whole(got, RECORD);
        let block = show_block(&input[..n], place, &mut text);
        if !io::write_all(STDOUT_FILENO, &text[..block.len]) {
            io::write_all(STDERR_FILENO, b"shown: the text cannot be written\n");
            return;
        }
        place = block.place;
        if block.refused.is_some() {
            report(place, block.refused);
            return;
        }
        if got.failed {
            io::write_all(STDERR_FILENO, b"shown: the input cannot be read\n");
            return;
        }
        if n < BLOCK {
            return;
        }
    }
}

fn main(rt: HostRuntime) {
    run(&mut rt.stdin());
}
