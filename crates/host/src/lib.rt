// The calls for hosts in C and Rust: a site by value in and out, cells and record as slices, the answer as six numbers in a lent array.
#![tactic(auto)]

ghost use Rattle.std.specs.Prelude.{◌≡◌, []};
ghost use Rattle.plain.specs.Site.{offer, confirm, work, read, look, query};
ghost use Rattle.plain.specs.Steps.{refused};
ghost use Rattle.site.specs.Refusals.{number_or_none};
ghost use Rattle.store.specs.Meaning.{cells_of};
ghost use Rattle.text.specs.Calls as T;
ghost use Rattle.site.specs.Held.{store, state_of, answer_of};
ghost use Rattle.host.specs.Told.{told, shown, told_fresh, told_text, Told, ToldWork, ToldFresh, ToldText, Readable, bad_line_of};

use cells::{CELLS, copy_cells};
use site::{Answer, Refusal, Site};
use text::Refused;

// The answer of a call: what it is, then its numbers in document 01's order, then zeros.
pub const NUMBERS: usize = 6;

// What the first number says.
#[derive(Clone, Copy, PartialEq, Eq)]
enum Said {
    Refused = 0,
    Queued = 1,
    Stepped = 2,
    Executed = 3,
    Committed = 4,
    Waiting = 5,
    Value = 6,
    ToDo = 7,
    Unconfirmed = 8,
    Started = 9,
    Written = 10,
    Begun = 11,
    Entry = 12,
}

// Writes the six numbers of an answer; of an entry also the class that was asked for.
// kept: told case by case, here and below, for the C interface says which numbers an answer has.
fn tell(answer: Answer, class: u64, out: &mut [u64; NUMBERS])
    ensures { out.new ≡ told class (answer_of answer []) }
{
    match answer {
        Answer::Refused(n) => {
            *out = numbers_of_refusal(n);
        }
        Answer::Queued {
            id,
            class,
            place,
            slot,
        } => {
            *out = [
                Said::Queued as u64,
                id as u64,
                class as u64,
                place as u64,
                slot as u64,
                0,
            ];
        }
        Answer::Stepped { id, done } => {
            *out = [Said::Stepped as u64, id as u64, done as u64, 0, 0, 0];
        }
        Answer::Executed { id } => {
            *out = [Said::Executed as u64, id as u64, 0, 0, 0, 0];
        }
        Answer::Committed {
            id,
            number,
            mark,
            slot,
            backs,
        } => {
            *out = [
                Said::Committed as u64,
                id as u64,
                number as u64,
                mark as u64,
                slot as u64,
                backs,
            ];
        }
        Answer::Waiting { id, w, back } => {
            *out = [Said::Waiting as u64, id as u64, w as u64, back as u64, 0, 0];
        }
        Answer::Value(n) => {
            *out = [Said::Value as u64, n as u64, 0, 0, 0, 0];
        }
        Answer::ToDo { w, backs } => {
            *out = [Said::ToDo as u64, w as u64, backs, 0, 0, 0];
        }
        Answer::Unconfirmed { backs } => {
            *out = [Said::Unconfirmed as u64, backs, 0, 0, 0, 0];
        }
        Answer::Begun { place } => {
            *out = [Said::Begun as u64, place as u64, 0, 0, 0, 0];
        }
        Answer::Entry { place } => {
            *out = [Said::Entry as u64, place as u64, class, 0, 0, 0];
        }
    }
}

// The six numbers of a refusal.
fn numbers_of_refusal(number: u8) -> [u64; NUMBERS]
    ensures { result ≡ told 0 (refused number) }
{
    [Said::Refused as u64, number as u64, 0, 0, 0, 0]
}

// The six numbers of a fresh start, refused or not.
fn numbers_of_fresh(refused: Option<Refusal>) -> [u64; NUMBERS]
    ensures { result ≡ told_fresh (number_or_none refused) }
{
    match refused {
        None => [Said::Started as u64, 0, 0, 0, 0, 0],
        Some(refusal) => numbers_of_refusal(refusal.number()),
    }
}

// The six numbers of what came of a text.
fn numbers_of_text(outcome: Result<usize, Refused>) -> [u64; NUMBERS]
    ensures { result ≡ told_text (T.answer_of outcome) }
{
    match outcome {
        Ok(length) => [Said::Written as u64, length as u64, 0, 0, 0, 0],
        Err(refused) => [
            Said::Refused as u64,
            refused.number(),
            bad_line(refused),
            0,
            0,
            0,
        ],
    }
}

// The first bad line of a text, and 0 of any other refusal.
fn bad_line(refused: Refused) -> u64
    ensures { result ≡ bad_line_of refused }
{
    match refused {
        Refused::BadText { line } => line as u64,
        Refused::NoRecord | Refused::TooShort => 0,
    }
}

// Clears both runs of cells and hands back a fresh site; or refuses with 1 and hands back an empty one.
#[unsafe(no_mangle)]
pub extern "C" fn shpendorak_fresh(
    committed: &mut [u32],
    working: &mut [u32],
    answer: &mut [u64; NUMBERS],
) -> Site
    ensures { ToldFresh committed.old working.old (store result) committed.new working.new answer.new }
{
    let started = promised::fresh(committed, working);
    *answer = numbers_of_fresh(started.refused);
    started.site
}

// Queues the request of a record; or refuses with 1, 2, 3, 4, 14 or 5.
#[unsafe(no_mangle)]
pub extern "C" fn shpendorak_offer(
    site: Site,
    committed: &[u32],
    working: &[u32],
    booking: &[u8],
    answer: &mut [u64; NUMBERS],
) -> Site
    ensures { Told (state_of site committed.now working.now) (offer booking.now) (state_of result committed.now working.now) answer.new }
{
    let reply = promised::offer(site, committed, working, booking);
    tell(reply.answer, 0, answer);
    reply.site
}

// Confirms a queued id under the next number; or refuses with 1, 2, 6, 7, 8 or 9.
#[unsafe(no_mangle)]
pub extern "C" fn shpendorak_confirm(
    site: Site,
    committed: &mut [u32],
    working: &mut [u32],
    id: u64,
    number: u64,
    answer: &mut [u64; NUMBERS],
) -> Site
    ensures { Told (state_of site committed.old working.old) (confirm id number) (state_of result committed.new working.new) answer.new }
{
    let reply = promised::confirm(site, committed, working, id, number);
    tell(reply.answer, 0, answer);
    reply.site
}

// Where an entry was read, the committed cells of its class are put into an array.
fn show(answer: Answer, committed: &[u32], class: u64, entry: &mut [u32; CELLS])
    requires { Readable answer committed.now class }
    ensures { entry.new ≡ shown (answer_of answer (cells_of committed.now class)) entry.old }
{
    match answer {
        Answer::Entry { .. } => {
            let a = CELLS * (class as usize);
            let b = a + CELLS;
            copy_cells(entry, &committed[a..b]);
        }
        _ => {}
    }
}

// The head of a class does its next operation, or an entry of a query there is read, and its cells put into `entry`; or refuses with 1, 2, 10 or 11.
#[unsafe(no_mangle)]
pub extern "C" fn shpendorak_work(
    site: Site,
    committed: &mut [u32],
    working: &mut [u32],
    class: u64,
    entry: &mut [u32; CELLS],
    answer: &mut [u64; NUMBERS],
) -> Site
    ensures { ToldWork (state_of site committed.old working.old) class (state_of result committed.new working.new) entry.old entry.new answer.new }
{
    let reply = promised::work(site, committed, working, class);
    show(reply.answer, &*committed, class, entry);
    tell(reply.answer, class, answer);
    reply.site
}

// Begins a query over the classes of a mask, bit c for class c; or refuses with 1, 2, 17, 18 or 24.
#[unsafe(no_mangle)]
pub extern "C" fn shpendorak_query(
    site: Site,
    committed: &[u32],
    working: &mut [u32],
    mask: u16,
    answer: &mut [u64; NUMBERS],
) -> Site
    ensures { Told (state_of site committed.now working.old) (query mask) (state_of result committed.now working.new) answer.new }
{
    let reply = promised::query(site, committed, working, mask);
    tell(reply.answer, 0, answer);
    reply.site
}

// The committed cell of a class; or refuses with 1, 2, 10 or 12. The site stays as it is.
#[unsafe(no_mangle)]
pub extern "C" fn shpendorak_read(
    site: Site,
    committed: &[u32],
    working: &[u32],
    class: u64,
    cell: u64,
    answer: &mut [u64; NUMBERS],
) -> Site
    ensures { Told (state_of site committed.now working.now) (read class cell) (state_of result committed.now working.now) answer.new }
{
    let given = promised::read(site, committed, working, class, cell);
    // kept: what read answers is told here, so that the answer takes no stack.
    match given {
        Answer::Refused(n) => {
            *answer = numbers_of_refusal(n);
        }
        Answer::Value(n) => {
            *answer = [Said::Value as u64, n as u64, 0, 0, 0, 0];
        }
        _ => {
            tell(given, 0, answer);
        }
    }
    site
}

// W of a confirmed request, or that it is unconfirmed; or refuses with 1, 2 or 8. The site stays as it is.
#[unsafe(no_mangle)]
pub extern "C" fn shpendorak_look(
    site: Site,
    committed: &[u32],
    working: &[u32],
    id: u64,
    answer: &mut [u64; NUMBERS],
) -> Site
    ensures { Told (state_of site committed.now working.now) (look id) (state_of result committed.now working.now) answer.new }
{
    let given = promised::look(site, committed, working, id);
    tell(given, 0, answer);
    site
}

// Writes the text of a booking record into a buffer; or refuses with 3 or 16, and writes nothing.
#[unsafe(no_mangle)]
pub extern "C" fn shpendorak_write_text(
    booking: &[u8],
    text: &mut [u8],
    answer: &mut [u64; NUMBERS],
)
    ensures { ToldText (λ a. T.Wrote booking.now text.old a text.new) answer.new }
{
    *answer = numbers_of_text(text::write(booking, text));
}

// Writes the booking record of a text into a buffer; or refuses with 15 or 16, and writes nothing.
#[unsafe(no_mangle)]
pub extern "C" fn shpendorak_read_text(text: &[u8], booking: &mut [u8], answer: &mut [u64; NUMBERS])
    ensures { ToldText (λ a. T.Took text.now booking.old a booking.new) answer.new }
{
    *answer = numbers_of_text(text::read(text, booking));
}
