// Query: each class that a mask names gets an entry, before its waiting requests; a head that waits is put back as in confirm. Work reads the entries.
ghost use Rattle.std.specs.Prelude.{[], ◌≡◌};
ghost use Rattle.plain.specs.Site.{query};
ghost use Rattle.queries.specs.Table.{lowest_free_place};
ghost use Rattle.store.specs.Steps.{FirstsWaiting};
ghost use Rattle.store.specs.Calls.{Did, Called};
ghost use Rattle.site.specs.Held.{store, state_of, answer_of, Judged, MayQuery};

use crate::waiting::backed;
use crate::{Answer, CLASS_PLACES, Refusal, Reply, SLOT_LIMIT, Site};
use queries::{lowest_free, names, with};

impl Site {
    // The place, from 0, at which a query over the classes of a mask may begin, and else why it is refused: 1, 2, 17, 18 or 24.
    fn judge_query(self, committed: &[u32], working: &[u32], mask: u16) -> Result<usize, Refusal>
        ensures { Judged (state_of self committed.now working.now) (query mask) (λ p. MayQuery (state_of self committed.now working.now) mask × (p ≡ lowest_free_place self.queries)) result }
    {
        self.door(committed, working)?;
        if mask == 0 {
            return Err(Refusal::NoClassNamed);
        }
        let table = self.queries;
        let Some(place) = lowest_free(&table) else {
            return Err(Refusal::QueriesOpen);
        };
        if self.begun == u32::MAX {
            return Err(Refusal::QueriesUsedUp);
        }
        Ok(place)
    }

    // Begins a query over the classes of a mask and answers its place, 1 to 8; or refuses with 1, 2, 17, 18 or 24.
    pub fn query(mut self, committed: &[u32], working: &mut [u32], mask: u16) -> Reply
        ensures { Called (state_of self committed.now working.old) (query mask) (state_of result.site committed.now working.new) (answer_of result.answer []) }
    {
        let judged = self.judge_query(committed, &*working, mask);
        let answer = match judged {
            Err(refusal) => Answer::Refused(refusal.number()),
            Ok(p) => {
                let firsts = self.firsts_waiting();
                self.begun = self.begun + 1;
                for c in 0..cells::CLASSES {
                    if names(mask, c as u32) {
                        let to = firsts[c];
                        let len = self.lens[c];
                        let sum = self.sums[c];
                        if to == 0 && len != 0 {
                            cells::copy_class(working, committed, c);
                            let i = self.queue[CLASS_PLACES * c] as usize;
                            let v = self.slots[i];
                            self.slots[i] = backed(v);
                        }
                        self.queue[CLASS_PLACES * c + (len as usize)] = SLOT_LIMIT + (p as u8);
                        self.lens[c] = len + 1;
                        places::move_forward(&mut self.queue, c, len as usize, to);
                        let q = self.queries[p];
                        self.queries[p] = with(q, c as u32, self.confirmations);
                        self.sums[c] = sum + 1;
                    }
                }
                Answer::Begun {
                    place: (p as u8) + 1,
                }
            }
        };
        Reply {
            site: self,
            answer: answer,
        }
    }
}
