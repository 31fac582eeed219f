// The event of the driving program: 72 bytes, and the call that they ask for, made on a site with its cells.
#![tactic(auto)]

ghost use Rattle.site.specs.Held.{state_of, answer_of};
ghost use Rattle.std.specs.Prelude.{◌≤◌};
ghost use Rattle.line.specs.Text.{written, RestZero};
ghost use Rattle.event.specs.Event.{read_by, Happened, Listed};
ghost use Rattle.event.specs.Kinds.{KindOf, KindIn};

use line::{Line, line_of};
use site::{Answer, Refusal, Reply, Site};
use slots::decode::word_at;

// An event has 72 bytes: kind, class, cell, an unused byte, a 4-byte number, and a record, whose first four bytes are an id.
pub const EVENT: usize = 72;

// Where these stand.
const KIND_AT: usize = 0;

const CLASS_AT: usize = 1;

const CELL_AT: usize = 2;

const NUMBER_AT: usize = 4;

const RECORD_AT: usize = 8;

// What an event asks for.
#[derive(Clone, Copy, PartialEq, Eq)]
enum Kind {
    Offer = 1,
    Confirm = 2,
    Work = 3,
    Read = 4,
}

impl TryFrom<u8> for Kind {
    type Error = Refusal;

    ghost try_from_gives = { KindOf };

    fn try_from(byte: u8) -> Result<Self, Refusal> {
        match byte {
            1 => Ok(Kind::Offer),
            2 => Ok(Kind::Confirm),
            3 => Ok(Kind::Work),
            4 => Ok(Kind::Read),
            _ => Err(Refusal::BadEvent),
        }
    }
}

// The kind of an event; refused where it is short or too long, or its kind is not known.
fn kind_of(bytes: &[u8]) -> Result<Kind, Refusal>
    ensures { KindIn bytes.now result }
{
    if bytes.len() != EVENT {
        return Err(Refusal::BadEvent);
    }
    Kind::try_from(bytes[KIND_AT])
}

// Makes the call that an event asks for and answers what the call does; or refuses with 13, and touches nothing.
pub fn happen(site: Site, committed: &mut [u32], working: &mut [u32], bytes: &[u8]) -> Reply
    ensures { Happened (state_of site committed.old working.old) bytes.now (state_of result.site committed.new working.new) (answer_of result.answer (read_by bytes.now committed.new)) }
{
    match kind_of(bytes) {
        Ok(Kind::Offer) => promised::offer(site, &*committed, &*working, &bytes[RECORD_AT..]),
        Ok(Kind::Confirm) => {
            let id = word_at(bytes, RECORD_AT);
            let number = word_at(bytes, NUMBER_AT);
            promised::confirm(site, committed, working, id as u64, number as u64)
        }
        Ok(Kind::Work) => promised::work(site, committed, working, bytes[CLASS_AT] as u64),
        Ok(Kind::Read) => {
            let class = bytes[CLASS_AT] as u64;
            let cell = bytes[CELL_AT] as u64;
            let answer = promised::read(site, &*committed, &*working, class, cell);
            Reply {
                site: site,
                answer: answer,
            }
        }
        Err(refusal) => Reply {
            site: site,
            answer: Answer::Refused(refusal.number()),
        },
    }
}

// An event's line, and the site to go on with.
#[derive(Clone, Copy)]
pub struct Done {
    pub site: Site,
    pub line: Line,
}

// Makes the call that an event asks for, and answers the line that the event has at its place in the input.
pub fn answer_event(
    site: Site,
    committed: &mut [u32],
    working: &mut [u32],
    place: u64,
    bytes: &[u8],
) -> Done
    ensures listed { Listed (state_of site committed.old working.old) place bytes.now (state_of result.site committed.new working.new) (written result.line) }
    ensures len_bound { result.line.len ≤ 144 }
    ensures rest { RestZero result.line }
{
    let reply = happen(site, committed, working, bytes);
    Done {
        site: reply.site,
        line: line_of(place, reply.answer),
    }
}
