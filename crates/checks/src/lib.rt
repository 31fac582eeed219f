// The pieces of the soundness check: each decides one of document 01's rules, of the slots' fields gathered once, the queue places and the
// classes' lengths.
#![tactic(auto)]

ghost use Rattle.std.specs.Prelude.{◌≡◌, length, is_ok, MatchResult};
ghost use Rattle.plain.specs.Sizes.{slot_count};
ghost use Rattle.plain.specs.Decides.{Decides};
ghost use Rattle.store.specs.Store.{run_size};
ghost use Rattle.store.specs.Checks.{nth, MapOf, Unnumbered, Differ, FreeIn, numbered, Heads, HeadsHold, HeadCells};
ghost use Rattle.checks.specs.Given.{LaidGiven};

mod gather; // gather.rt: the slots' fields, gathered once
mod once; // once.rt: what stands in the queues
mod queues; // queues.rt: the rules of the queue places

use cells::{CELLS, CLASSES, same_cells};
pub use gather::{Owners, Stages, Unfit, gather_numbers, gather_owners, gather_stages};
use once::each_once;
pub use places::{CLASS_PLACES, PLACES};
use queries::Query;
use queues::{Queues, heads, in_order, sums_right, tails_zero};
use slots::Slot;
use slots::steps::head_ok;
use usedmap::UsedMap;

// Slots are 0 to 127, and up to 8 queries are open. A queue has at most all of them, so each class has 136 queue places.
pub const SLOTS: usize = 128;

pub const QUERIES: usize = 8;

// The length of the longest queue.
const LONGEST: u8 = CLASS_PLACES as u8;

// What stands at a queue place is a slot if it is below this, and else the query whose index is as much above it.
pub const SLOT_LIMIT: u8 = SLOTS as u8;

// "The map of used slots agrees."
fn map_agrees(ids: &[u32; SLOTS], map: UsedMap) -> bool
    ensures { Decides result (MapOf map.lo map.hi (nth ids.now)) }
{
    for (k, id) in ids.iter().enumerate() {
        if map.is_used(k as u32) != (*id != 0) {
            return false;
        }
    }
    true
}

// "Ids differ", and "confirmed numbers differ over the whole site": over the pairs of slots, left at the first breach. A free slot is passed over.
// kept: the walk left by a label is a rule of the project (docs/DECISIONS.md, Forms).
fn pairs_differ<'a>(ids: &'a [u32; SLOTS], lines: &'a [u32; CLASS_PLACES]) -> bool
    requires { Unnumbered (nth ids.now) (nth lines.now) }
    ensures { Decides result (Differ (nth ids.now) (nth lines.now)) }
{
    let mut differ = true;
    'pairs: for i in 0..SLOTS {
        let id = ids[i];
        let number = lines[i];
        if id == 0 {
            continue;
        }
        for j in i + 1..SLOTS {
            if id == ids[j] {
                differ = false;
                break 'pairs;
            }
            if number == lines[j] {
                if number != 0 {
                    differ = false;
                    break 'pairs;
                }
            }
        }
    }
    differ
}

// A place of queries that is free is all zero. All are looked at, without a branch.
fn free_zero(table: [Query; QUERIES]) -> bool
    ensures { Decides result (FreeIn table) }
{
    let mut zero = true;
    for q in table {
        zero = zero & ((q.classes != 0) | (q.begun == 0));
    }
    zero
}

// How many slots hold a number.
fn numbered(lines: &[u32; CLASS_PLACES]) -> u32
    ensures { result ≡ numbered (nth lines.now) slot_count }
{
    let mut n = 0;
    for line in &lines[..SLOTS] {
        if *line != 0 {
            n += 1;
        }
    }
    n
}

// Whether the gathered fields, the queues, the queries and the map keep their rules, after `top` confirmations; and "the count of confirmations equals
// the count of commits plus the confirmed requests queued".
fn agree(
    owners: &Owners,
    stages: &Stages,
    queues: &Queues,
    table: [Query; QUERIES],
    map: UsedMap,
    top: u32,
    commits: u32,
) -> bool
    requires { Unnumbered (nth owners.now.ids) (nth stages.now.lines) }
    ensures { Decides result (LaidGiven owners.now stages.now queues.now.places.now queues.now.lens.now queues.now.sums.now table map top commits) }
{
    if !free_zero(table) {
        return false;
    }
    if !tails_zero(queues) {
        return false;
    }
    if !map_agrees(&owners.ids, map) {
        return false;
    }
    if !each_once(owners, queues, table, map) {
        return false;
    }
    if !pairs_differ(&owners.ids, &stages.lines) {
        return false;
    }
    if !in_order(stages, queues, top) {
        return false;
    }
    if !sums_right(stages, queues) {
        return false;
    }
    let n = numbered(&stages.lines);
    (commits as u64) + (n as u64) == top as u64
}

// Whether these rules are kept, and no queue is longer than 136; in either case what stands at the head of each class, 128 where its queue is empty.
// kept: 128 for the head of an empty queue, since what stands at a place is a byte, and 128 no slot.
// kept: the arrays by value, here and where slots are given, since to lend them from a site given by value costs a copy of the site, and misses tests/yardstick/stack.limits.
// kept: Unnumbered is a fact of two values, and so in no type.
pub fn laid_out(
    owners: &Owners,
    stages: &Stages,
    queue: [u8; PLACES],
    lens: [u8; CLASSES],
    sums: [u16; CLASSES],
    table: [Query; QUERIES],
    map: UsedMap,
    top: u32,
    commits: u32,
) -> Result<[u8; CLASSES], [u8; CLASSES]>
    requires { Unnumbered (nth owners.now.ids) (nth stages.now.lines) }
    ensures decides { Decides (is_ok result) (LaidGiven owners.now stages.now queue lens sums table map top commits) }
    ensures heads { MatchResult result (Heads queue lens) (Heads queue lens) }
{
    let heads = heads(&queue, &lens);
    let Some(queues) = Queues::of(&queue, &lens, &sums) else {
        return Err(heads);
    };
    if !agree(owners, stages, &queues, table, map, top, commits) {
        return Err(heads);
    }
    Ok(heads)
}

// "The working cells are the committed ones with the head's done operations carried out on them", or equal to them where no request is the head.
pub fn cells_ok(
    slots: [Slot; SLOTS],
    heads: [u8; CLASSES],
    committed: &[u32],
    working: &[u32],
) -> bool
    requires committed_len { (length committed.now ≡ run_size) × (length working.now ≡ run_size) }
    requires heads_hold { HeadsHold slots heads }
    ensures { Decides result (HeadCells slots heads committed.now working.now) }
{
    for (c, head) in heads.iter().enumerate() {
        let a = CELLS * c;
        let base = &committed[a..a + CELLS];
        let work = &working[a..a + CELLS];
        if SLOT_LIMIT <= *head {
            if !same_cells(work, base) {
                return false;
            }
        } else {
            if !head_ok(slots[*head as usize], base, work) {
                return false;
            }
        }
    }
    true
}
