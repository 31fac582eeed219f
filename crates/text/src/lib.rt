// The text form of a booking request: written from a record, and read into one.
#![tactic(auto)]

ghost use Rattle.std.specs.Prelude.{◌≡◌};
ghost use Rattle.text.specs.declared.Refused.TheVariants.{BadText};
ghost use Rattle.text.specs.Calls.{number_of, answer_of, Handed, Wrote, Took};

use decimal::put;
use encode::record_of;
pub use lines::LONGEST;
use lines::put_text;
pub use opline::NEWLINE;
use parse::{BadLine, parse};
use slots::decode::read_record;

mod encode; // encode.rt: a slot, written as a request record
mod lines; // lines.rt: a slot, written as text
mod name; // name.rt: the names of the operations
mod opline; // opline.rt: the line of an operation, read
mod parse; // parse.rt: a text, read into a slot

// Why a call gives no result: the bytes are no record; the text is bad, first at a line, from 1; the lent buffer is shorter than the result.
#[derive(Clone, Copy, PartialEq, Eq)]
pub enum Refused {
    NoRecord,
    BadText { line: usize },
    TooShort,
}

impl Refused {
    // The number by which a refusal is told.
    pub fn number(self) -> u64
        ensures { result ≡ number_of self }
    {
        match self {
            Refused::NoRecord => 3,
            Refused::BadText { line: _ } => 15,
            Refused::TooShort => 16,
        }
    }
}

impl From<BadLine> for Refused {
    ghost from_gives = { λ bad refused. refused ≡ BadText bad.line };

    fn from(bad: BadLine) -> Refused {
        Refused::BadText { line: bad.line }
    }
}

// Writes the text of a record into a buffer, and answers its length.
// kept: a buffer with its length beside it, since `decimal` puts behind a place in a lent buffer.
pub fn write(bytes: &[u8], to: &mut [u8]) -> Result<usize, Refused>
    ensures { Wrote bytes.now to.old (answer_of result) to.new }
{
    let slot = read_record(bytes).ok_or(Refused::NoRecord)?;
    let mut text = [0u8; LONGEST];
    let n = put_text(&mut text, slot);
    hand_over(&text[..n], to)
}

// Writes the record of a text into a buffer, and answers its length.
pub fn read(text: &[u8], to: &mut [u8]) -> Result<usize, Refused>
    ensures { Took text.now to.old (answer_of result) to.new }
{
    let slot = parse(text)?;
    let bytes = record_of(slot);
    hand_over(&bytes, to)
}

// Puts a result at the start of a buffer and answers its length; touches nothing where the buffer is shorter.
fn hand_over(made: &[u8], to: &mut [u8]) -> Result<usize, Refused>
    ensures { Handed made.now to.old (answer_of result) to.new }
{
    if to.len() < made.len() {
        return Err(Refused::TooShort);
    }
    Ok(put(to, 0, made))
}
