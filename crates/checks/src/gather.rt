// The fields of the slots and queries, gathered into lists once, for the walks over them.
ghost use Rattle.std.specs.Prelude.{◌≡◌, is_ok, MatchResult};
ghost use Rattle.plain.specs.Decides.{Decides};
ghost use Rattle.store.specs.Checks.{nth, due, Classed, SlotsIn, Owned, Staged, Lined};

use crate::{CLASS_PLACES, QUERIES, SLOTS};
use queries::Query;
use slots::{Slot, slot_ok};

// The slots' ids and classes.
#[derive(Clone, Copy)]
pub struct Owners {
    pub ids: [u32; SLOTS],
    pub classes: [u8; SLOTS],
    ghost classed: { Classed (nth classes) },
}

// The same of slots that are not all in order: a class may be any number.
#[derive(Clone, Copy)]
pub struct Unfit {
    pub ids: [u32; SLOTS],
    pub classes: [u8; SLOTS],
}

// Of what queue places name the lines, done operations and marks, and the work calls that it takes where it is confirmed.
#[derive(Clone, Copy)]
pub struct Stages {
    pub lines: [u32; CLASS_PLACES],
    pub dones: [u8; CLASS_PLACES],
    pub marks: [u8; CLASS_PLACES],
    pub dues: [u8; CLASS_PLACES],
}

// Whether "each slot is free and all zero, or holds a valid record", and no count of times put back is above `top`; their ids and classes in either
// case. All slots are looked at, without a branch.
pub fn gather_owners(slots: [Slot; SLOTS], top: u64) -> Result<Owners, Unfit>
    ensures decides { Decides (is_ok result) (SlotsIn slots top) }
    ensures owned { MatchResult result (λ o. Owned slots o.ids o.classes) (λ o. Owned slots o.ids o.classes) }
{
    let mut all = Unfit {
        ids: [0; SLOTS],
        classes: [0; SLOTS],
    };
    let mut fit = true;
    for (i, v) in slots.iter().enumerate() {
        fit = fit & (slot_ok(*v) & (v.backs <= top));
        all.ids[i] = v.id;
        all.classes[i] = v.class;
    }
    if !fit {
        return Err(all);
    }
    Ok(Owners {
        ids: all.ids,
        classes: all.classes,
    })
}

// The numbers of the slots.
pub fn gather_numbers(slots: &[Slot; SLOTS]) -> [u32; SLOTS]
    ensures { Staged slots.now result }
{
    let mut numbers = [0; SLOTS];
    for (slot, v) in slots.iter().enumerate() {
        numbers[slot] = v.number;
    }
    numbers
}

// The work calls that a request takes where it is confirmed, else 0.
fn due(number: u32, count: u8, done: u8) -> u8
    ensures { result ≡ due number count done }
{
    if number == 0 {
        return 0;
    }
    count.saturating_sub(done)
}

// The stages of the slots and queries. The line of a slot is its number, that of an entry the count at its query's beginning; an entry takes one work call.
pub fn gather_stages(slots: [Slot; SLOTS], table: [Query; QUERIES]) -> Stages
    ensures { Lined slots table result.lines result.dones result.marks result.dues }
{
    let mut g = Stages {
        lines: [0; CLASS_PLACES],
        dones: [0; CLASS_PLACES],
        marks: [0; CLASS_PLACES],
        dues: [1; CLASS_PLACES],
    };
    for (at, v) in slots.iter().enumerate() {
        g.lines[at] = v.number;
        g.dones[at] = v.done;
        g.marks[at] = v.mark;
        g.dues[at] = due(v.number, v.count, v.done);
    }
    for (p, q) in table.iter().enumerate() {
        g.lines[SLOTS + p] = q.begun;
    }
    g
}
