// The rules of the queue places: how long the queues are, what stands past their ends, in which order, and with which sums.
ghost use Rattle.std.specs.Prelude.{◌≡◌, ◌+◌, ◌*◌, ◌<◌, ◌≤◌, length, is_some, IfSome, slice_range};
ghost use Rattle.plain.specs.Sizes.{class_count, most_queued};
ghost use Rattle.plain.specs.Decides.{Decides};
ghost use Rattle.store.specs.Store.{place_count};
ghost use Rattle.store.specs.Sound.{Short};
ghost use Rattle.store.specs.Checks.{nth, ZeroFrom, Tails, stand, Next, QueueOk, PlacesOk, Named, InRange, sum_over, SumsIn, Heads};

use crate::{CLASS_PLACES, LONGEST, PLACES, SLOT_LIMIT, Stages};
use cells::CLASSES;

// The queue places, with each class's length, none above 136, and the sum that stands with it.
#[derive(Clone, Copy)]
pub struct Queues<'a> {
    pub places: &'a [u8; PLACES],
    pub lens: &'a [u8; CLASSES],
    pub sums: &'a [u16; CLASSES],
    ghost whole: { length places.now ≡ place_count },
    ghost short: { Short lens.now },
}

impl<'a> Queues<'a> {
    // "No queue is longer than 136": if so, the queues.
    pub fn of(
        places: &'a [u8; PLACES],
        lens: &'a [u8; CLASSES],
        sums: &'a [u16; CLASSES],
    ) -> Option<Queues<'a>>
        ensures short { Decides (is_some result) (Short lens.now) }
        ensures same { IfSome result (λ q. (q.places.now ≡ places.now) × (q.lens.now ≡ lens.now) × (q.sums.now ≡ sums.now)) }
    {
        if !lens.iter().all(|len| *len <= LONGEST) {
            return None;
        }
        Some(Queues { places, lens, sums })
    }

    // What stands in the queue of class c.
    pub fn queue(&self, c: usize) -> &'a [u8]
        requires { c < class_count }
        ensures { result.now ≡ slice_range self.now.places.now (most_queued * c) (most_queued * c + nth self.now.lens.now c) }
    {
        let places = self.places;
        let a = CLASS_PLACES * c;
        &places[a..a + self.lens[c] as usize]
    }
}

// Whether places are all zero: all are looked at, without a branch.
fn all_zero(places: &[u8]) -> bool
    ensures { Decides result (ZeroFrom places.now 0 (length places.now)) }
{
    let mut zero = true;
    for b in places {
        zero = zero & (*b == 0);
    }
    zero
}

// "Queue places past the end are zero."
pub fn tails_zero(queues: &Queues) -> bool
    ensures { Decides result (Tails queues.now.places.now queues.now.lens.now) }
{
    let places = queues.places;
    for (c, len) in queues.lens.iter().enumerate() {
        let a = CLASS_PLACES * c;
        if !all_zero(&places[a + *len as usize..a + CLASS_PLACES]) {
            return false;
        }
    }
    true
}

// Whether what stands at queue place b is confirmed: it is an entry, or the line is a number.
fn standing(b: u8, line: u32) -> bool
    ensures { result ≡ stand b line }
{
    SLOT_LIMIT <= b || 0 < line
}

// Whether y, with this line, done operations and mark, may stand directly behind x with the line `before`.
fn behind(x: u8, before: u32, y: u8, line: u32, done: u8, mark: u8) -> bool
    ensures { Decides result (Next x before y line done mark) }
{
    if done != 0 {
        return false;
    }
    if mark != 0 {
        return false;
    }
    if !standing(y, line) {
        return true;
    }
    if !standing(x, before) {
        return false;
    }
    if before < line {
        return true;
    }
    if y < SLOT_LIMIT {
        return false;
    }
    before == line
}

// "In each queue the confirmed stand before the waiting, with rising numbers", among them the entries by the count at their beginning; "only a head has
// anything done or is declined": of one queue.
fn queue_ok(stages: &Stages, queue: &[u8], confirmations: u32) -> bool
    requires { Named queue.now 0 (length queue.now) }
    ensures { Decides result (QueueOk (nth stages.now.lines) (nth stages.now.dones) (nth stages.now.marks) queue.now confirmations 0 (length queue.now)) }
{
    for (p, y) in queue.iter().enumerate() {
        let i = *y as usize;
        let line = stages.lines[i];
        if confirmations < line {
            return false;
        }
        if 0 < p {
            let x = queue[p - 1];
            let before = stages.lines[x as usize];
            if !behind(x, before, *y, line, stages.dones[i], stages.marks[i]) {
                return false;
            }
        }
    }
    true
}

// The same of all queues.
pub fn in_order(stages: &Stages, queues: &Queues, confirmations: u32) -> bool
    requires { InRange queues.now.places.now queues.now.lens.now }
    ensures { Decides result (PlacesOk (nth stages.now.lines) (nth stages.now.dones) (nth stages.now.marks) queues.now.places.now queues.now.lens.now confirmations) }
{
    for c in 0..CLASSES {
        if !queue_ok(stages, queues.queue(c), confirmations) {
            return false;
        }
    }
    true
}

// The work calls that the confirmed part of a queue takes.
fn sum_of(dues: &[u8; CLASS_PLACES], queue: &[u8]) -> u16
    requires { (length queue.now ≤ most_queued) × Named queue.now 0 (length queue.now) }
    ensures { result ≡ sum_over (nth dues.now) queue.now 0 (length queue.now) }
{
    let mut w = 0;
    for b in queue {
        w += dues[*b as usize] as u16;
    }
    w
}

// The sum that stands with each class is that of its confirmed part.
pub fn sums_right(stages: &Stages, queues: &Queues) -> bool
    requires { InRange queues.now.places.now queues.now.lens.now }
    ensures { Decides result (SumsIn (nth stages.now.dues) queues.now.places.now queues.now.lens.now queues.now.sums.now) }
{
    for c in 0..CLASSES {
        if queues.sums[c] != sum_of(&stages.dues, queues.queue(c)) {
            return false;
        }
    }
    true
}

// What stands at the head of each class, 128 where its queue is empty.
pub fn heads(places: &[u8; PLACES], lens: &[u8; CLASSES]) -> [u8; CLASSES]
    ensures { Heads places.now lens.now result }
{
    let mut heads = [SLOT_LIMIT; CLASSES];
    for (c, len) in lens.iter().enumerate() {
        if *len != 0 {
            heads[c] = places[CLASS_PLACES * c];
        }
    }
    heads
}
