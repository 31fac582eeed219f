// Where the waiting requests of a queue begin: behind the confirmed and the entries of queries. And a request put back.
ghost use Rattle.std.specs.Prelude.{◌≡◌, ◌+◌, ◌<◌, ◌≤◌};
ghost use Rattle.plain.specs.Sizes.{wide_word};
ghost use Rattle.store.specs.Store.{place_count};
ghost use Rattle.store.specs.Sound.{Laid};
ghost use Rattle.store.specs.Checks.{nth};
ghost use Rattle.store.specs.Steps.{WaitsFrom, FirstWaiting, FirstsWaiting, as_put_back};
ghost use Rattle.site.specs.Held.{store};

use crate::{CLASS_PLACES, SLOT_LIMIT, SLOTS, Site};
use checks::{PLACES, gather_numbers};
use slots::Slot;

// The place of the first waiting request in the queue that begins at a, its length where none waits.
fn waits_from<'a>(numbers: &'a [u32; SLOTS], queue: &'a [u8; PLACES], a: usize, len: usize) -> usize
    requires { a + len ≤ place_count }
    ensures { WaitsFrom (nth numbers.now) queue.now a len result }
{
    for p in 0..len {
        let b = queue[a + p];
        if b < SLOT_LIMIT {
            if numbers[b as usize] == 0 {
                return p;
            }
        }
    }
    len
}

// What a request is when it was put back: nothing done, not declined, put back once more.
pub(crate) fn backed(mut v: Slot) -> Slot
    requires { v.backs + 1 < wide_word }
    ensures { result ≡ as_put_back v }
{
    v.done = 0;
    v.mark = 0;
    v.backs = v.backs + 1;
    v
}

impl Site {
    // The place of the first waiting request in class c's queue, its length where none waits.
    #[inline(never)]
    pub(crate) fn first_waiting(&self, c: usize) -> usize
        requires { Laid (store self.now) × (c < 16) }
        ensures { FirstWaiting (store self.now) c result }
    {
        let numbers = gather_numbers(&self.slots);
        let queue = self.queue;
        let lens = self.lens;
        waits_from(&numbers, &queue, CLASS_PLACES * c, lens[c] as usize)
    }

    // The same of every class.
    #[inline(never)]
    pub(crate) fn firsts_waiting(&self) -> [usize; cells::CLASSES]
        requires { Laid (store self.now) }
        ensures { FirstsWaiting (store self.now) result }
    {
        let numbers = gather_numbers(&self.slots);
        let queue = self.queue;
        let lens = self.lens;
        let mut ends = [0; cells::CLASSES];
        for c in 0..cells::CLASSES {
            ends[c] = waits_from(&numbers, &queue, CLASS_PLACES * c, lens[c] as usize);
        }
        ends
    }
}
