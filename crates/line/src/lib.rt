// The text of one line of output: the event's place in the input, a word, numbers.
#![tactic(auto)]

ghost use Rattle.std.specs.Prelude.{◌+◌, ◌*◌, ◌≤◌, ◌≡◌, [], ◌++◌, length};
ghost use Rattle.arrayvec.specs.ArrayVec.{array_vec_len};
ghost use Rattle.site.specs.Held.{answer_of};
ghost use Rattle.decimal.specs.Decimal.{decimal};
ghost use Rattle.line.specs.Text.{line_with, line_of, written, RestZero};

use arrayvec::ArrayVec;
use decimal::put;
use site::Answer;

// A line so far: the longest has 144 bytes.
type Text = ArrayVec<u8, 144>;

// A line: the first len of the bytes. Those behind are zero.
// kept: a length beside the bytes, since a line can be copied, and an ArrayVec cannot.
#[derive(Clone, Copy)]
pub struct Line {
    pub bytes: [u8; 144],
    pub len: usize,
}

impl Line {
    // What stands in a line.
    pub fn as_slice(&self) -> &[u8]
        ensures { result.now ≡ written self.now }
    {
        &self.bytes[..self.len.min(144)]
    }
}

// The line of a text that is whole.
fn line_with_text(text: &Text) -> Line
    ensures result_value { written result ≡ text.now.items }
    ensures len_bound { result.len ≤ 144 }
    ensures rest { RestZero result }
{
    let mut bytes = [0; 144];
    let len = put(&mut bytes, 0, text.as_slice());
    Line { bytes, len }
}

// The line that an answer to the event at a place gives.
// kept: no Display, by a rule of the project: the words are fixed byte strings, written into the line.
pub fn line_of(place: u64, answer: Answer) -> Line
    ensures result_value { written result ≡ line_of place (answer_of answer []) }
    ensures len_bound { result.len ≤ 144 }
    ensures rest { RestZero result }
{
    match answer {
        Answer::Refused(n) => whole(place, b"refused", &[n as u64]),
        Answer::Queued {
            id,
            class,
            place: at,
            slot,
        } => whole(
            place,
            b"queued",
            &[id as u64, class as u64, at as u64, slot as u64],
        ),
        Answer::Stepped { id, done } => whole(place, b"stepped", &[id as u64, done as u64]),
        Answer::Executed { id } => whole(place, b"executed", &[id as u64]),
        Answer::Committed {
            id,
            number,
            mark,
            slot,
            backs,
        } => whole(
            place,
            b"committed",
            &[id as u64, number as u64, mark as u64, slot as u64, backs],
        ),
        Answer::Waiting { id, w, back } => whole(
            place,
            b"waiting",
            &[id as u64, w as u64, back as u64],
        ),
        Answer::Value(n) => whole(place, b"value", &[n as u64]),
        Answer::ToDo { w, backs } => whole(place, b"to-do", &[w as u64, backs]),
        Answer::Unconfirmed { backs } => whole(place, b"unconfirmed", &[backs]),
        Answer::Begun { place: at } => whole(place, b"begun", &[at as u64]),
        Answer::Entry { place: at } => whole(place, b"entry", &[at as u64]),
    }
}

// The line of a place, a word of at most 11 letters, and at most five numbers.
fn whole(place: u64, word: &[u8], numbers: &[u64]) -> Line
    requires word_len_bound { length word.now ≤ 11 }
    requires numbers_len_bound { length numbers.now ≤ 5 }
    ensures result_value { written result ≡ line_with place word.now numbers.now }
    ensures len_bound { result.len ≤ 144 }
    ensures rest { RestZero result }
{
    let mut line = Text::new();
    put_number(&mut line, place);
    line.push(b' ');
    line.try_extend_from_slice(word).unwrap();
    for number in numbers {
        line.push(b' ');
        put_number(&mut line, *number);
    }
    line.push(b'\n');
    line_with_text(&line)
}

// Puts a number's decimal digits, at most 20, behind a line.
fn put_number(line: &mut Text, number: u64)
    requires { array_vec_len line.old + 20 ≤ 144 }
    ensures line_after { line.new.items ≡ line.old.items ++ decimal number }
    ensures len_bound { array_vec_len line.new ≤ array_vec_len line.old + 20 }
{
    let mut digits = [0u8; 20];
    let count = io::decimal(number, &mut digits);
    line.try_extend_from_slice(&digits[..count]).unwrap();
}
