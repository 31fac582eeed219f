// Read and look: what a site answers without changing, and the search of an id.
ghost use Rattle.std.specs.Prelude.{[], ◌≡◌, ◌<◌, IfSome};
ghost use Rattle.plain.specs.Queue.{owed};
ghost use Rattle.plain.specs.Site.{read, look};
ghost use Rattle.slots.specs.Meaning.{slot_at};
ghost use Rattle.store.specs.Meaning.{queue_of};
ghost use Rattle.store.specs.Sound.{Laid};
ghost use Rattle.store.specs.Steps.{Countable, KeptW, WaitingLast};
ghost use Rattle.store.specs.Calls.{Called};
ghost use Rattle.site.specs.Held.{store, state_of, answer_of, SlotOf};

use crate::{Answer, CELLS, CLASS_PLACES, CLASSES, Refusal, SLOT_LIMIT, SLOTS, Site};
use slots::Slot;

// A slot that is looked at; and the sum of its class where it ends the confirmed part there.
#[derive(Clone, Copy)]
struct Seen {
    slot: Slot,
    w: Option<u16>,
}

impl Site {
    // The slot of a queued id: the search breaks with the slot.
    // kept: the form of this search is a rule of the project (docs/DECISIONS.md, Forms).
    pub(crate) fn slot_of(self, id: u64) -> Option<usize>
        ensures { SlotOf self.slots id result }
    {
        if id == 0 {
            return None;
        }
        let mut i = 0;
        loop {
            if SLOTS <= i {
                break None;
            }
            if self.slots[i].id as u64 == id {
                break Some(i);
            }
            i += 1;
        }
    }

    // The operations still to do by slot s and by all before it in the queue of class c; an entry of a query counts 1.
    fn to_do(self, c: usize, s: usize) -> u32
        requires { Countable (store self) c × (s < 128) × (0 < (slot_at self.slots s).id) }
        ensures { result ≡ owed (slot_at self.slots s).id (queue_of (store self) c) }
    {
        let len = self.lens[c] as usize;
        let mut w: u32 = 0;
        for p in 0..len {
            let b = self.queue[CLASS_PLACES * c + p];
            let i = b as usize;
            if b < SLOT_LIMIT {
                let v = self.slots[i];
                let left = v.count - v.done;
                w = w + (left as u32);
            } else {
                w = w + 1;
            }
            if i == s {
                return w;
            }
        }
        w
    }

    // Slot i, and its W where it ends the confirmed part of its class. The end is sought by halves, since all behind a waiting request wait.
    fn seen(self, i: usize) -> Seen
        requires { Laid (store self) × (i < 128) × ((slot_at self.slots i).class < 16) × WaitingLast (store self) (slot_at self.slots i).class }
        ensures { (result.slot ≡ slot_at self.slots i) × IfSome result.w (KeptW (store self) i) }
    {
        let v = self.slots[i];
        let c = v.class as usize;
        let a = CLASS_PLACES * c;
        let queue = &self.queue[a..a + self.lens[c] as usize];
        let behind = queue.partition_point(|b| SLOT_LIMIT <= *b
            || self.slots[*b as usize].number != 0);
        if behind == 0 {
            return Seen { slot: v, w: None };
        }
        if queue[behind - 1] as usize != i {
            return Seen { slot: v, w: None };
        }
        Seen {
            slot: v,
            w: Some(self.sums[c]),
        }
    }

    // The committed cell of a class; or refuses with 1, 2, 10 or 12.
    pub fn read(self, committed: &[u32], working: &[u32], class: u64, cell: u64) -> Answer
        ensures { Called (state_of self committed.now working.now) (read class cell) (state_of self committed.now working.now) (answer_of result []) }
    {
        if let Err(refusal) = self.door(committed, working) {
            return Answer::Refused(refusal.number());
        }
        if CLASSES <= class {
            return Answer::Refused(Refusal::NoSuchClass.number());
        }
        if CELLS <= cell {
            return Answer::Refused(Refusal::NoSuchCell.number());
        }
        let at = cells::CELLS * (class as usize) + (cell as usize);
        Answer::Value(committed[at])
    }

    // W for a confirmed request, the class's sum where it ends the confirmed part; or that it is unconfirmed, and how often it was put back; or refuses with 1, 2 or 8.
    pub fn look(self, committed: &[u32], working: &[u32], id: u64) -> Answer
        ensures { Called (state_of self committed.now working.now) (look id) (state_of self committed.now working.now) (answer_of result []) }
    {
        if let Err(refusal) = self.door(committed, working) {
            return Answer::Refused(refusal.number());
        }
        let Some(i) = self.slot_of(id) else {
            return Answer::Refused(Refusal::NotQueued.number());
        };
        let s = self.seen(i);
        let v = s.slot;
        if v.number == 0 {
            return Answer::Unconfirmed { backs: v.backs };
        }
        if let Some(w) = s.w {
            return Answer::ToDo {
                w: w as u32,
                backs: v.backs,
            };
        }
        let c = v.class as usize;
        Answer::ToDo {
            w: self.to_do(c, i),
            backs: v.backs,
        }
    }
}
