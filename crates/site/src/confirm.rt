// Confirm: a request gets its definitive number; it commits at once if it is the executed head, or moves forward to stand before the waiting ones.
ghost use Rattle.std.specs.Prelude.{[], ◌≡◌, ◌+◌, ◌<◌, ◌≤◌};
ghost use Rattle.plain.specs.Site.{confirm};
ghost use Rattle.slots.specs.Meaning.{slot_at};
ghost use Rattle.store.specs.Steps.{Backable, PutBack, PlaceOf, FirstWaiting, Forward, numbered_store};
ghost use Rattle.store.specs.Calls.{Did, Called};
ghost use Rattle.plain.specs.Decides.{Decides};
ghost use Rattle.site.specs.Held.{store, state_of, answer_of, Judged, MayConfirm, Confirmable, HeadDone, InQueue};

use crate::waiting::backed;
use crate::{Answer, CLASS_PLACES, Refusal, Reply, Site};
use kept::KEPT;

// Where a request is that may be confirmed.
#[derive(Clone, Copy)]
struct Found {
    slot: usize,
    class: usize,
}

impl Site {
    // The place in class c's queue at which slot i stands.
    fn place_of(self, c: usize, i: usize) -> usize
        requires { InQueue (store self) c i }
        ensures { PlaceOf (store self) c i result }
    {
        let len = self.lens[c] as usize;
        for p in 0..len {
            let x = self.queue[CLASS_PLACES * c + p];
            if x as usize == i {
                return p;
            }
        }
        len
    }

    // The head of class c is put back: nothing done, not declined, put back once more, and the working cells of the class become the committed ones.
    fn put_back(mut self, committed: &[u32], working: &mut [u32], c: usize) -> Self
        requires { Backable (store self) committed.now working.old c }
        ensures { PutBack (store self) committed.now working.old c (store result) working.new }
    {
        cells::copy_class(working, committed, c);
        let i = self.queue[CLASS_PLACES * c] as usize;
        let v = self.slots[i];
        self.slots[i] = backed(v);
        self
    }

    // Slot i has the next number, its id is kept under it, and one confirmation more is counted.
    fn numbered(mut self, i: usize) -> Self
        requires { (i < 128) × (self.confirmations < 4294967295) }
        ensures { store result ≡ numbered_store (store self) i (self.confirmations + 1) }
    {
        let n = self.confirmations + 1;
        self.confirmations = n;
        let mut v = self.slots[i];
        v.number = n;
        self.slots[i] = v;
        self.kept[(n as usize) % KEPT] = v.id;
        self
    }

    // Slot i gets the next number and moves forward from one place of class c's queue to another.
    fn forward(mut self, c: usize, i: usize, from: usize, to: usize) -> Self
        requires { (i < 128) × (c < 16) × (to ≤ from) × (from < 136) × (self.confirmations < 4294967295) }
        ensures { Forward (store self) c i (self.confirmations + 1) from to (store result) }
    {
        self = self.numbered(i);
        places::move_forward(&mut self.queue, c, from, to);
        self
    }

    // Whether slot i is the executed head of class c.
    fn head_done(self, c: usize, i: usize) -> bool
        requires { (i < 128) × (c < 16) × (c ≡ (slot_at self.slots i).class) }
        ensures { Decides result (HeadDone (store self) i) }
    {
        if self.queue[CLASS_PLACES * c] as usize != i {
            return false;
        }
        let v = self.slots[i];
        v.done == v.count
    }

    // Confirms the request in slot i, which waits and is no executed head: it moves forward from one place to another. W is the class's sum with what the
    // request still takes, and becomes the sum.
    fn confirm_later(
        mut self,
        committed: &[u32],
        working: &mut [u32],
        i: usize,
        from: usize,
        to: usize,
    ) -> Reply
        requires confirmable { Confirmable (state_of self committed.now working.old) i × (HeadDone (store self) i → ⊥) }
        requires place_of { PlaceOf (store self) (slot_at self.slots i).class i from × FirstWaiting (store self) (slot_at self.slots i).class to }
        ensures { Did (state_of self committed.now working.old) (confirm (slot_at self.slots i).id (self.confirmations + 1)) (state_of result.site committed.now working.new) (answer_of result.answer []) }
    {
        let v = self.slots[i];
        let c = v.class as usize;
        let first = self.queue[CLASS_PLACES * c] as usize;
        let left = v.count - v.done;
        let w = self.sums[c] + (left as u16);
        self.sums[c] = w;
        if first != i {
            if to == 0 {
                let head = self.slots[first];
                self = self.put_back(committed, working, c);
                self = self.forward(c, i, from, to);
                return Reply {
                    site: self,
                    answer: Answer::Waiting {
                        id: v.id,
                        w: w as u32,
                        back: head.id,
                    },
                };
            }
        }
        self = self.forward(c, i, from, to);
        Reply {
            site: self,
            answer: Answer::Waiting {
                id: v.id,
                w: w as u32,
                back: 0,
            },
        }
    }

    // Confirms the request in slot i, which is the executed head of its class: it commits.
    // kept: what `numbered` does stands here again, since one function for both takes a site of stack more.
    fn confirm_now(mut self, committed: &mut [u32], working: &[u32], i: usize) -> Reply
        requires { Confirmable (state_of self committed.old working.now) i × HeadDone (store self) i }
        ensures { Did (state_of self committed.old working.now) (confirm (slot_at self.slots i).id (self.confirmations + 1)) (state_of result.site committed.new working.now) (answer_of result.answer []) }
    {
        let n = self.confirmations + 1;
        self.confirmations = n;
        let mut head = self.slots[i];
        head.number = n;
        self.slots[i] = head;
        self.kept[(n as usize) % KEPT] = head.id;
        let c = head.class as usize;
        self = self.commit(committed, working, c);
        Reply {
            site: self,
            answer: Answer::Committed {
                id: head.id,
                number: n,
                mark: head.mark,
                slot: (i % 256) as u8,
                backs: head.backs,
            },
        }
    }

    // Where the request is that a confirmation is for, and else why it is refused: 1, 2, 6, 7, 8 or 9.
    fn judge_confirm(
        self,
        committed: &[u32],
        working: &[u32],
        id: u64,
        number: u64,
    ) -> Result<Found, Refusal>
        ensures { Judged (state_of self committed.now working.now) (confirm id number) (λ f. MayConfirm (state_of self committed.now working.now) id number f.slot f.class) result }
    {
        self.door(committed, working)?;
        if self.confirmations == u32::MAX {
            return Err(Refusal::NumbersUsedUp);
        }
        if number != (self.confirmations as u64) + 1 {
            return Err(Refusal::OutOfTurn);
        }
        let Some(slot) = self.slot_of(id) else {
            return Err(Refusal::NotQueued);
        };
        let v = self.slots[slot];
        if v.number != 0 {
            return Err(Refusal::ConfirmedAlready);
        }
        Ok(Found {
            slot: slot,
            class: v.class as usize,
        })
    }

    // Confirms a queued id under the next number; answers the commit, or W and the id put back; or refuses with 1, 2, 6, 7, 8 or 9.
    pub fn confirm(
        mut self,
        committed: &mut [u32],
        working: &mut [u32],
        id: u64,
        number: u64,
    ) -> Reply
        ensures { Called (state_of self committed.old working.old) (confirm id number) (state_of result.site committed.new working.new) (answer_of result.answer []) }
    {
        let found = match self.judge_confirm(&*committed, &*working, id, number) {
            Ok(found) => found,
            Err(refusal) => {
                let no = refusal.number();
                return Reply {
                    site: self,
                    answer: Answer::Refused(no),
                };
            }
        };
        let i = found.slot;
        let c = found.class;
        if self.head_done(c, i) {
            return self.confirm_now(committed, &*working, i);
        }
        let from = self.place_of(c, i);
        let to = self.first_waiting(c);
        self.confirm_later(&*committed, working, i, from, to)
    }
}
