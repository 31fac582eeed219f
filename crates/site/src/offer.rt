// Offer: a record's request joins the end of its class's queue, in the lowest-numbered free slot.
ghost use Rattle.std.specs.Prelude.{[], ◌<◌, get_or};
ghost use Rattle.plain.specs.Site.{offer};
ghost use Rattle.store.specs.Calls.{RightCells, SoundState, Did, Called};
ghost use Rattle.site.specs.Held.{state_of, answer_of, Placed};

use crate::{Answer, CLASS_PLACES, Refusal, Reply, SLOTS, Site};
use kept::{KEPT, among};
use slots::Slot;
use slots::decode::read_record;

impl Site {
    // Slot s takes v and stands at the end of its class's queue.
    fn enqueue(mut self, s: u32, v: Slot) -> Self
        requires { (s < 128) × (v.class < 16) × (get_or self.lens v.class 0 < 136) }
        ensures { Placed self s v result }
    {
        let i = s as usize;
        let c = v.class as usize;
        let len = self.lens[c];
        self.slots[i] = v;
        let at = CLASS_PLACES * c + (len as usize);
        self.queue[at] = (s % 256) as u8;
        self.lens[c] = len + 1;
        self.used = self.used.with_used(s);
        self
    }

    // Offer on a sound site.
    fn offer_sound(mut self, committed: &[u32], working: &[u32], bytes: &[u8]) -> Reply
        requires { RightCells (state_of self committed.now working.now) × SoundState (state_of self committed.now working.now) }
        ensures { Did (state_of self committed.now working.now) (offer bytes.now) (state_of result.site committed.now working.now) (answer_of result.answer []) }
    {
        let Some(v) = read_record(bytes) else {
            return Reply {
                site: self,
                answer: Answer::Refused(Refusal::NoRecord.number()),
            };
        };
        let id = v.id;
        let class = v.class;
        if self.slot_of(id as u64).is_some() {
            return Reply {
                site: self,
                answer: Answer::Refused(Refusal::IdQueued.number()),
            };
        }
        if among(&self.kept, KEPT, id) {
            return Reply {
                site: self,
                answer: Answer::Refused(Refusal::IdKept.number()),
            };
        }
        if self.used.used_count() as usize == SLOTS {
            return Reply {
                site: self,
                answer: Answer::Refused(Refusal::SlotsFull.number()),
            };
        }
        let s = self.used.lowest_free().unwrap();
        self = self.enqueue(s, v);
        let c = class as usize;
        let place = self.lens[c];
        Reply {
            site: self,
            answer: Answer::Queued {
                id: id,
                class: class,
                place: place,
                slot: (s % 256) as u8,
            },
        }
    }

    // Queues the request of a record and answers id, class, place (1 is the head) and slot; or refuses with 1, 2, 3, 4, 14 or 5.
    pub fn offer(mut self, committed: &[u32], working: &[u32], bytes: &[u8]) -> Reply
        ensures { Called (state_of self committed.now working.now) (offer bytes.now) (state_of result.site committed.now working.now) (answer_of result.answer []) }
    {
        if let Err(refusal) = self.door(committed, working) {
            return Reply {
                site: self,
                answer: Answer::Refused(refusal.number()),
            };
        }
        self.offer_sound(committed, working, bytes)
    }
}
