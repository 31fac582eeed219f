// What the programs of the text form say of a record that is refused. That what is written comes out on standard error is left to the system.
#![tactic(auto)]

ghost use Rattle.std.specs.Prelude.{◌≤◌, ◌≡◌, length, take};
ghost use Rattle.io.specs.Counts.{IsPrefixLen};
ghost use Rattle.text.specs.Calls.{refusal_of};
ghost use Rattle.refusal.specs.Said.{refusal_start, refusal_line, said};

use decimal::{put, put_number};
use text::Refused;

// kept: the system's numbers; no crate below the programs has to do with files.
const STDERR_FILENO: i32 = 2;

// The words of the line and three numbers, of 20 digits at most each, fit 87 bytes.
const LINE: usize = 87;

// Writes what is said of the record at a place, from 1, to standard error: nothing where it is not refused.
pub fn report(place: u64, refused: Option<Refused>) {
    let mut line = [0u8; LINE];
    let n = put_refusal(&mut line, place, refused);
    io::write_all(STDERR_FILENO, &line[..n]);
}

// Puts the line that is said of the record at a place, and answers its length: 0 where the record is not refused.
fn put_refusal(to: &mut [u8; LINE], place: u64, refused: Option<Refused>) -> usize
    ensures prefix_len { IsPrefixLen result to.new }
    ensures to_after { take result to.new ≡ said place refused }
{
    match refused {
        Some(refused) => put_refused(to, place, refused),
        None => 0,
    }
}

// Puts the line of a refusal, which names the line of a bad text.
fn put_refused(to: &mut [u8], place: u64, refused: Refused) -> usize
    requires { 87 ≤ length to.old }
    ensures upper_bound { result ≤ 87 }
    ensures to_after { take result to.new ≡ refusal_line place (refusal_of refused) }
{
    let said = put_start(to, place, refused.number());
    let Refused::BadText { line } = refused else {
        return put(to, said, b"\n");
    };
    let named = put(to, said, b" at line ");
    let numbered = put_number(to, named, line as u64);
    put(to, numbered, b"\n")
}

// Puts the place of a record and the number that refuses it.
fn put_start(to: &mut [u8], place: u64, number: u64) -> usize
    requires { 57 ≤ length to.old }
    ensures upper_bound { result ≤ 57 }
    ensures to_after { take result to.new ≡ refusal_start place number }
{
    let named = put(to, 0, b"record ");
    let placed = put_number(to, named, place);
    let said = put(to, placed, b": refused ");
    put_number(to, said, number)
}
