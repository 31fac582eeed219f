// The site: its value, the check that it is sound with its cells, and fresh. The calls stand in offer, work, confirm, look and query.
#![tactic(auto)]

ghost use Rattle.std.specs.Prelude.{◌≡◌, ◌+◌, length, is_some, IfSome};
ghost use Rattle.plain.specs.Decides.{Decides};
ghost use Rattle.store.specs.Sound.{Sound};
ghost use Rattle.store.specs.Checks.{SlotsIn, Owned, Heads};
ghost use Rattle.store.specs.Calls.{Started};
ghost use Rattle.site.specs.Held.{store, state_of, InOrder, Door};
ghost use Rattle.site.specs.Refusals.{number_or_none};

mod confirm;
mod look;
mod offer;
mod query;
mod refusal;
mod waiting;
mod work;

use cells::RUN;
pub use checks::SLOTS;
use checks::{
    CLASS_PLACES, Owners, PLACES, QUERIES, SLOT_LIMIT, cells_ok, gather_owners, gather_stages,
    laid_out,
};
use kept::{KEPT, kept_ok};
use queries::Query;
pub use refusal::Refusal;
use slots::Slot;
use usedmap::UsedMap;

// A class is below 16 and a cell below 64; what a caller gives may be any number.
const CLASSES: u64 = cells::CLASSES as u64;

const CELLS: u64 = cells::CELLS as u64;

#[repr(C)]
#[derive(Clone, Copy)]
pub struct Site {
    pub slots: [Slot; SLOTS],
    pub queue: [u8; PLACES],
    pub lens: [u8; cells::CLASSES],
    pub used: UsedMap,
    pub confirmations: u32,
    pub commits: u32,
    pub kept: [u32; KEPT],
    pub queries: [Query; QUERIES],
    pub begun: u32,
    pub sums: [u16; cells::CLASSES],
}

// What a call answers; document 01's number and values for each case are in specs/Held.
// kept: 0 for none in `back` and `mark`, as document 01 has these numbers; a refusal by its number, since `line_of` of `line` takes any answer, also one with a number that no refusal has.
#[derive(Clone, Copy)]
pub enum Answer {
    Refused(u8),
    Queued {
        id: u32,
        class: u8,
        place: u8,
        slot: u8,
    },
    Stepped {
        id: u32,
        done: u8,
    },
    Executed {
        id: u32,
    },
    Committed {
        id: u32,
        number: u32,
        mark: u8,
        slot: u8,
        backs: u64,
    },
    Waiting {
        id: u32,
        w: u32,
        back: u32,
    },
    Value(u32),
    ToDo {
        w: u32,
        backs: u64,
    },
    Unconfirmed {
        backs: u64,
    },
    Begun {
        place: u8,
    },
    Entry {
        place: u8,
    },
}

// The site handed back, with the answer.
#[derive(Clone, Copy)]
pub struct Reply {
    pub site: Site,
    pub answer: Answer,
}

// A fresh site; or an empty one, and why it is none.
// kept: no Result, since a host is handed the empty site too.
#[derive(Clone, Copy)]
pub struct Fresh {
    pub site: Site,
    pub refused: Option<Refusal>,
}

impl Site {
    // No request queued, no query open, all counts 0, all cells 0. With wrong cells it touches none.
    pub fn fresh(committed: &mut [u32], working: &mut [u32]) -> Fresh
        ensures { Started committed.old working.old (store result.site) (number_or_none result.refused) committed.new working.new }
    {
        let site = Site {
            slots: [Slot::default(); SLOTS],
            queue: [0; PLACES],
            lens: [0; cells::CLASSES],
            used: UsedMap::default(),
            confirmations: 0,
            commits: 0,
            kept: [0; KEPT],
            queries: [Query::default(); QUERIES],
            begun: 0,
            sums: [0; cells::CLASSES],
        };
        if committed.len() != RUN || working.len() != RUN {
            return Fresh {
                site: site,
                refused: Some(Refusal::WrongCells),
            };
        }
        committed.fill(0);
        working.fill(0);
        Fresh {
            site: site,
            refused: None,
        }
    }

    // Whether the site is sound with its cells.
    fn sound(self, committed: &[u32], working: &[u32]) -> bool
        requires { (length committed.now ≡ 1024) × (length working.now ≡ 1024) }
        ensures { Decides result (Sound (store self) committed.now working.now) }
    {
        match self.heads() {
            Some(heads) => cells_ok(self.slots, heads, committed, working),
            None => false,
        }
    }

    // Whether the site keeps its rules but for the cells: if so, what stands at the head of each class, 128 where its queue is empty.
    fn heads(self) -> Option<[u8; cells::CLASSES]>
        ensures decides { Decides (is_some result) (InOrder (store self)) }
        ensures heads { IfSome result (Heads self.queue self.lens) }
    {
        let top = (self.confirmations as u64) + (self.begun as u64);
        match &gather_owners(self.slots, top) {
            Ok(owners) => self.heads_given(owners),
            Err(_) => None,
        }
    }

    // The same where its slots are in order and `owners` has their ids and classes.
    fn heads_given(self, owners: &Owners) -> Option<[u8; cells::CLASSES]>
        requires in_order { SlotsIn self.slots (self.confirmations + self.begun) }
        requires owned { Owned self.slots owners.now.ids owners.now.classes }
        ensures decides { Decides (is_some result) (InOrder (store self)) }
        ensures heads { IfSome result (Heads self.queue self.lens) }
    {
        let stages = gather_stages(self.slots, self.queries);
        if !kept_ok(&owners.ids, &stages.lines, self.kept, self.confirmations) {
            return None;
        }
        laid_out(
            owners,
            &stages,
            self.queue,
            self.lens,
            self.sums,
            self.queries,
            self.used,
            self.confirmations,
            self.commits,
        )
        .ok()
    }

    // What every call begins with: the cells are right and the site sound, or why it is refused.
    // kept: both runs as two parameters, here and in the calls, since which of them is lent to be written differs from call to call.
    fn door(self, committed: &[u32], working: &[u32]) -> Result<(), Refusal>
        ensures { Door (state_of self committed.now working.now) result }
    {
        if committed.len() != RUN || working.len() != RUN {
            return Err(Refusal::WrongCells);
        }
        if !self.sound(committed, working) {
            return Err(Refusal::Unsound);
        }
        Ok(())
    }
}
