// "Every used slot stands exactly once, in the queue of its class, and no free slot stands in one"; "every entry belongs to an open query, and an open
// query has one entry or more, one at most in each": what stands at the places is taken from what may stand, and at the end nothing is left.
ghost use Rattle.std.specs.Prelude.{◌<◌, ◌≤◌};
ghost use Rattle.plain.specs.Decides.{Decides};
ghost use Rattle.store.specs.Checks.{nth, flag_of, OnceIn, NamesNone, AllRead};
ghost use Rattle.checks.specs.Once.{OneTaken, EntryTaken, ClassTaken, NoneUsed};

use crate::queues::Queues;
use crate::{LONGEST, Owners, QUERIES, SLOT_LIMIT, SLOTS};
use cells::CLASSES;
use queries::{Query, names, without_class};
use usedmap::UsedMap;

// What may still stand in the queues: each slot that is marked, in its class, and each query in the classes that it has still to read.
#[derive(Clone, Copy)]
pub struct Unseen {
    pub map: UsedMap,
    pub table: [Query; QUERIES],
}

// Whether a slot may stand in the queue of class c; if so, it is taken.
fn take_slot(classes: &[u8; SLOTS], u: &mut Unseen, c: u8, b: u8) -> bool
    requires { b < 128 }
    ensures { OneTaken (nth classes.now) u.old c b result u.new }
{
    let i = b as usize;
    if classes[i] != c {
        return false;
    }
    if !u.map.is_used(b as u32) {
        return false;
    }
    u.map = u.map.with_free(b as u32);
    true
}

// The same of an entry.
fn take_entry(u: &mut Unseen, c: u8, b: u8) -> bool
    requires { (128 ≤ b) × (c < 16) }
    ensures { EntryTaken u.old c b result u.new }
{
    if LONGEST <= b {
        return false;
    }
    let p = (b - SLOT_LIMIT) as usize;
    let mut q = u.table[p];
    if !names(q.classes, c as u32) {
        return false;
    }
    q.classes = without_class(q.classes, c as u32);
    u.table[p] = q;
    true
}

// The same of b, a slot or an entry.
fn take_one(classes: &[u8; SLOTS], u: &mut Unseen, c: u8, b: u8) -> bool
    requires { c < 16 }
    ensures { OneTaken (nth classes.now) u.old c b result u.new }
{
    if b < SLOT_LIMIT {
        return take_slot(classes, u, c, b);
    }
    take_entry(u, c, b)
}

// The same of all that stands in the queue of class c.
fn class_once(classes: &[u8; SLOTS], queues: &Queues, u: &mut Unseen, c: usize) -> bool
    requires { c < 16 }
    ensures { ClassTaken (nth classes.now) u.old queues.now.places.now c (nth queues.now.lens.now c) result u.new }
{
    for b in queues.queue(c) {
        if !take_one(classes, u, c as u8, *b) {
            return false;
        }
    }
    true
}

// Whether no slot is marked.
fn none_used(map: UsedMap) -> bool
    ensures { Decides result (NoneUsed map.lo map.hi) }
{
    map.lo == 0 && map.hi == 0
}

// Whether a mask names no class.
fn names_none(mask: u16) -> bool
    ensures { Decides result (NamesNone mask) }
{
    mask == 0
}

// Whether no query has a class still to read.
fn all_read(table: &[Query; QUERIES]) -> bool
    ensures { Decides result (AllRead table.now) }
{
    table.iter().all(|q| names_none(q.classes))
}

// Whether what may stand in the queues stands there, and as often.
pub fn each_once(owners: &Owners, queues: &Queues, table: [Query; QUERIES], map: UsedMap) -> bool
    ensures { Decides result (OnceIn (flag_of map.lo map.hi) (nth owners.now.classes) table queues.now.places.now queues.now.lens.now) }
{
    let mut u = Unseen { map, table };
    for c in 0..CLASSES {
        if !class_once(&owners.classes, queues, &mut u, c) {
            return false;
        }
    }
    none_used(u.map) && all_read(&u.table)
}
