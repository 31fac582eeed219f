// Work: the head of a class does its next operation, and commits when it has done its last and is confirmed; a head that is an entry of a query is read.
ghost use Rattle.std.specs.Prelude.{◌≡◌, ◌<◌, ◌≤◌};
ghost use Rattle.plain.specs.Site.{work};
ghost use Rattle.store.specs.Steps.{Commitable, CommitDone, less_one};
ghost use Rattle.plain.specs.Decides.{Decides};
ghost use Rattle.store.specs.Meaning.{cells_of};
ghost use Rattle.store.specs.Calls.{Did, Called};
ghost use Rattle.site.specs.Held.{store, state_of, answer_of, Judged, MayWork, Worked};

use crate::{Answer, CLASS_PLACES, CLASSES, Refusal, Reply, SLOT_LIMIT, Site};
use queries::without;
use slots::Slot;
use slots::steps::step;

// Whether a head with these operations done commits: it is executed and confirmed.
fn commits(v: Slot) -> bool
    ensures { Decides result ((v.count ≤ v.done) × (0 < v.number)) }
{
    if v.done < v.count {
        return false;
    }
    v.number != 0
}

// What a head answers that did an operation and has slot s: how many are done, that it is executed, or its commit.
fn worked(v: Slot, s: u8) -> Answer
    ensures { Worked v s result }
{
    if v.done < v.count {
        return Answer::Stepped {
            id: v.id,
            done: v.done,
        };
    }
    if v.number == 0 {
        return Answer::Executed { id: v.id };
    }
    Answer::Committed {
        id: v.id,
        number: v.number,
        mark: v.mark,
        slot: s,
        backs: v.backs,
    }
}

// The sum of a class after a work call of a head with this number: one less, not below 0, where it is confirmed.
fn one_less(sum: u16, number: u32) -> u16
    ensures { result ≡ less_one sum number }
{
    if number == 0 {
        return sum;
    }
    if sum == 0 {
        return 0;
    }
    sum - 1
}

impl Site {
    // The head of class c commits: its cells, its slot, its place, the count.
    pub(crate) fn commit(mut self, committed: &mut [u32], working: &[u32], c: usize) -> Self
        requires { Commitable (store self) committed.old working.now c }
        ensures { CommitDone (store self) committed.old working.now c (store result) committed.new }
    {
        cells::copy_class(committed, working, c);
        let s = self.queue[CLASS_PLACES * c];
        let i = s as usize;
        self.slots[i] = Slot::default();
        self.used = self.used.with_free(s as u32);
        let len = self.lens[c];
        places::take_head(&mut self.queue, c, len as usize);
        self.lens[c] = len - 1;
        self.commits = self.commits + 1;
        self
    }

    // Whether a class may be worked for, and else why it is refused: 1, 2, 10 or 11.
    fn judge_work(self, committed: &[u32], working: &[u32], class: u64) -> Result<(), Refusal>
        ensures { Judged (state_of self committed.now working.now) (work class) (λ v. MayWork (state_of self committed.now working.now) class) result }
    {
        self.door(committed, working)?;
        if CLASSES <= class {
            return Err(Refusal::NoSuchClass);
        }
        let c = class as usize;
        if self.lens[c] == 0 {
            return Err(Refusal::NothingToDo);
        }
        let b = self.queue[CLASS_PLACES * c];
        if SLOT_LIMIT <= b {
            return Ok(());
        }
        let v = self.slots[b as usize];
        if v.done == v.count {
            return Err(Refusal::NothingToDo);
        }
        Ok(())
    }

    // The head of class c does its next operation, and commits if that was its last and it is confirmed. An entry of a query is read and leaves; its
    // query's place is free where it was the last. The class's sum is one less where the head is confirmed or an entry.
    fn work_head(mut self, committed: &mut [u32], working: &mut [u32], c: usize) -> Reply
        requires { MayWork (state_of self committed.old working.old) c }
        ensures { Did (state_of self committed.old working.old) (work c) (state_of result.site committed.new working.new) (answer_of result.answer (cells_of committed.new c)) }
    {
        let s = self.queue[CLASS_PLACES * c];
        if SLOT_LIMIT <= s {
            let p = s - SLOT_LIMIT;
            let q = self.queries[p as usize];
            self.queries[p as usize] = without(q, c as u32);
            let len = self.lens[c];
            places::take_head(&mut self.queue, c, len as usize);
            self.lens[c] = len - 1;
            self.sums[c] = one_less(self.sums[c], 1);
            return Reply {
                site: self,
                answer: Answer::Entry { place: p + 1 },
            };
        }
        let i = s as usize;
        let v = self.slots[i];
        let a = cells::CELLS * c;
        let b = a + cells::CELLS;
        let u = step(v, &committed[a..b], &mut working[a..b]);
        self.slots[i] = u;
        self.sums[c] = one_less(self.sums[c], v.number);
        if commits(u) {
            self = self.commit(committed, &*working, c);
        }
        Reply {
            site: self,
            answer: worked(u, s),
        }
    }

    // The head of a class does its next operation; answers id and operations done, that it is executed, its commit, or the entry read; or refuses with 1, 2, 10 or 11.
    pub fn work(mut self, committed: &mut [u32], working: &mut [u32], class: u64) -> Reply
        ensures { Called (state_of self committed.old working.old) (work class) (state_of result.site committed.new working.new) (answer_of result.answer (cells_of committed.new class)) }
    {
        if let Err(refusal) = self.judge_work(&*committed, &*working, class) {
            return Reply {
                site: self,
                answer: Answer::Refused(refusal.number()),
            };
        }
        let c = class as usize;
        self.work_head(committed, working, c)
    }
}
