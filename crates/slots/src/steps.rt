// A slot's operations, on the cells of its class.
// kept: that the cells are 64 and that the slot holds a record stand in the contracts and in no type, since document 01 lends a class's cells as a part of
// a run, and C hands a slot in with any bytes.
ghost use Rattle.std.specs.Prelude.{◌≡◌, ◌<◌, ◌≤◌, length};
ghost use Rattle.plain.specs.Sizes.{cell_count};
ghost use Rattle.slots.specs.Rules.{Holds};
ghost use Rattle.slots.specs.Steps.{carried_at, ran_to, Marked, StepDone, RanOn, HeadOk};

use super::Slot;
use cells::{CELLS, carry, copy_cells, same_cells};

// The slot's operation k, on cells of its class. Its place, from 1, if it declines, and then it leaves them; else 0.
// kept: no Option, since 0 for none is what the slot stores, and C reads it there.
fn carry_at(v: Slot, k: u8, cells: &mut [u32]) -> u8
    requires { (length cells.old ≡ cell_count) × Holds v × (k < v.count) }
    ensures cells_value { carried_at v k cells.old ≡ ran_to result cells.new }
    ensures cells_unchanged { 0 < result → cells.new ≡ cells.old }
{
    if carry(cells, v.ops[k as usize]) {
        0
    } else {
        k + 1
    }
}

// The slot's next operation, on the working cells. One that declines, or that has, leaves the committed ones.
pub fn step(mut v: Slot, from: &[u32], cells: &mut [u32]) -> Slot
    requires { (length from.now ≡ cell_count) × (length cells.old ≡ cell_count) × Holds v × (v.done < v.count) × Marked v from.now cells.old }
    ensures { StepDone v from.now cells.old result cells.new }
{
    let k = v.done;
    v.done = k + 1;
    if v.mark == 0 {
        let mark = carry_at(v, k, cells);
        v.mark = mark;
        if mark != 0 {
            copy_cells(cells, from);
        }
    }
    v
}

// What a slot's done operations came to: its mark, and the cells.
#[derive(Clone, Copy)]
pub struct Ran {
    pub mark: u8,
    pub cells: [u32; CELLS],
}

// The slot's done operations, on a copy of the committed cells.
pub fn run_done(v: Slot, from: &[u32]) -> Ran
    requires { (length from.now ≡ cell_count) × Holds v × (v.done ≤ v.count) }
    ensures { RanOn v from.now result.mark result.cells }
{
    let mut ran = Ran {
        mark: 0,
        cells: [0; CELLS],
    };
    copy_cells(&mut ran.cells, from);
    for k in 0..v.done {
        ran.mark = carry_at(v, k, &mut ran.cells);
        if ran.mark != 0 {
            copy_cells(&mut ran.cells, from);
            return ran;
        }
    }
    ran
}

// Whether a slot may be the head of its class, with the class's committed and working cells.
pub fn head_ok(v: Slot, from: &[u32], working: &[u32]) -> bool
    requires { (length from.now ≡ cell_count) × (length working.now ≡ cell_count) × Holds v }
    ensures { HeadOk result v from.now working.now }
{
    if v.count < v.done || (v.number != 0 && v.done == v.count) {
        return false;
    }
    let ran = run_done(v, from);
    ran.mark == v.mark && same_cells(working, &ran.cells)
}
