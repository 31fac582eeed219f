// Reads events from standard input, makes the call of each on a site that began fresh, and writes a line for each to standard output. That reading
// hands over the input and that what is written comes out is left to the system.
#![tactic(auto)]

ghost use Rattle.std.specs.Prelude.{◌≡◌, ◌+◌, ◌≤◌, [], ◌++◌, length, take, drop};
ghost use Rattle.site.specs.Held.{state_of};
ghost use Rattle.promises.specs.Runs.{FromFresh};
ghost use Rattle.input.specs.Pieces.{behind};
ghost use Rattle.drive.specs.Listing.{events_of, ListsOne, Lists, RanTo};

use decimal::put;
use event::{EVENT, answer_event};
use input::{fill, whole};
use site::Site;
use std::io::Read;

// kept: the system's numbers; no crate below the programs has to do with files.
const STDOUT_FILENO: i32 = 1;

const STDERR_FILENO: i32 = 2;

// Events are read in blocks of 450: their lines fit 65,536 bytes.
const BLOCK: usize = 32400;

// The site after an event, and how many bytes the text has with its line.
// kept: the text is io's large buffer, of a fixed length, so how many of its bytes are lines stands beside it
#[derive(Clone, Copy)]
struct Listed {
    site: Site,
    len: usize,
}

// The site after some events, how many bytes the text has with their lines, and the place of the next event.
#[derive(Clone, Copy)]
struct Block {
    site: Site,
    len: usize,
    place: u64,
}

// Makes an event, and puts its line into a text of len bytes.
fn list_event(
    site: Site,
    committed: &mut [u32],
    working: &mut [u32],
    place: u64,
    event: &[u8],
    text: &mut [u8],
    len: usize,
) -> Listed
    requires { len + 144 ≤ length text.old }
    ensures lists_one { ListsOne (state_of site committed.old working.old) place event.now (state_of result.site committed.new working.new) (take len text.old) (take result.len text.new) }
    ensures len_bound { result.len ≤ len + 144 }
{
    let done = answer_event(site, committed, working, place, event);
    Listed {
        site: done.site,
        len: put(text, len, done.line.as_slice()),
    }
}

// Makes a block's events, from a place on, and puts their lines into the text. The last event may be short.
fn list_block(
    mut site: Site,
    committed: &mut [u32],
    working: &mut [u32],
    first: u64,
    input: &[u8],
    text: &mut [u8],
) -> Block
    requires input_len_bound { length input.now ≤ 32400 }
    requires text_len { length text.old ≡ 65536 }
    ensures lists { Lists (state_of site committed.old working.old) first (events_of input.now) (state_of result.site committed.new working.new) (take result.len text.new) }
    ensures place_value { result.place ≡ behind first (length (events_of input.now)) }
    ensures len_bound { result.len ≤ 65536 }
{
    let mut place = first;
    let mut len = 0;
    for event in input.chunks(EVENT) {
        let listed = list_event(site, committed, working, place, event, text, len);
        site = listed.site;
        len = listed.len;
        place = place.wrapping_add(1);
    }
    Block {
        site: site,
        len: len,
        place: place,
    }
}

// Writes the lines of a block, and says so where that or reading failed; answers whether neither did.
fn write_lines(lines: &[u8], failed: bool) -> bool {
    if !io::write_all(STDOUT_FILENO, lines) {
        io::write_all(STDERR_FILENO, b"drive: the lines cannot be written\n");
        return false;
    }
    if failed {
        io::write_all(STDERR_FILENO, b"drive: the input cannot be read\n");
        return false;
    }
    true
}

// Block after block, until the input ends or cannot be read, or the lines cannot be written; hands back the site at the end.
// kept: the loops of drive, shown and typed differ in what is left of a block and in what is known of a run (`Ran`), which a closure would hide
fn run<R: Read>(stdin: &mut R, mut site: Site, committed: &mut [u32], working: &mut [u32]) -> Site
    requires { FromFresh [] (state_of site committed.old working.old) }
    ensures { RanTo (state_of site committed.old working.old) (state_of result committed.new working.new) }
{
    let mut input = [0u8; BLOCK];
    let mut text = io::large_buffer();
    let mut place: u64 = 1;
    for _ in 0..u64::MAX {
        let got = fill(stdin, &mut input);
        let n = whole(got, EVENT);
        let block = list_block(site, committed, working, place, &input[..n], &mut text);
        site = block.site;
        place = block.place;
        if !write_lines(&text[..block.len], got.failed) {
            return site;
        }
        if n < BLOCK {
            return site;
        }
    }
    site
}

fn main(rt: HostRuntime) {
    let mut committed = [0u32; 1024];
    let mut working = [0u32; 1024];
    let start = promised::fresh(&mut committed, &mut working);
    run(&mut rt.stdin(), start.site, &mut committed, &mut working);
}
