// The slot: one booking request with how far it has come, and its rules.
#![tactic(auto)]

ghost use Rattle.std.specs.Prelude.{◌≡◌, ◌<◌, ◌≤◌, ◌⊎◌};
ghost use Rattle.plain.specs.Decides.{Decides};
ghost use Rattle.cells.specs.Ops.{no_op, OpOk};
ghost use Rattle.slots.specs.Meaning.{slot_free};
ghost use Rattle.slots.specs.Rules.{OpsOk, OpsZero, Holds};

use cells::{CLASSES, Op, op_ok};

pub mod decode; // decode.rt: a request record, read into a slot
pub mod steps; // steps.rt: a slot's operations on the cells of its class

// A request has 1 to 7 operations.
pub const MOST_OPS: usize = 7;

#[repr(C)]
#[derive(Clone, Copy, Default, PartialEq, Eq)]
pub struct Slot {
    pub id: u32,
    pub class: u8,
    pub count: u8,
    pub ops: [Op; MOST_OPS],
    pub number: u32,
    pub done: u8,
    pub mark: u8,
    pub backs: u64,
}

// Whether operation k of a slot, which has `count` of them, keeps the rules of a record, or is zero past their number.
fn op_ok_at(op: Op, k: usize, count: usize) -> bool
    ensures { Decides result ((k < count → OpOk op) × (count ≤ k → op ≡ no_op)) }
{
    if k < count { op_ok(op) } else { op.is_zero() }
}

// Whether each operation of a slot does.
fn ops_ok(v: Slot) -> bool
    ensures { Decides result (OpsOk v) }
{
    v.ops
        .iter()
        .enumerate()
        .all(|(k, op)| op_ok_at(*op, k, v.count as usize))
}

// Whether a slot holds a valid record.
pub fn holds(v: Slot) -> bool
    ensures { Decides result (Holds v) }
{
    let count = v.count as usize;
    if v.id == 0 || CLASSES <= v.class as usize || count == 0 || MOST_OPS < count {
        return false;
    }
    ops_ok(v)
}

// Whether each operation of a slot is zero: all are looked at, without a branch.
fn ops_zero(v: Slot) -> bool
    ensures { Decides result (OpsZero v) }
{
    let mut zero = true;
    for op in v.ops {
        zero &= op.is_zero();
    }
    zero
}

// Whether a slot is the free one, which is all zero.
// kept: field by field, since `v == Slot::default()` branches at each, and takes four times as long on a site with few requests.
pub fn is_zero(v: Slot) -> bool
    ensures { Decides result (v ≡ slot_free) }
{
    let none = (v.id == 0) & (v.class == 0) & (v.count == 0);
    let untouched = (v.number == 0) & (v.done == 0) & (v.mark == 0) & (v.backs == 0);
    none & untouched & ops_zero(v)
}

// Whether a slot is free and all zero, or holds a valid record.
pub fn slot_ok(v: Slot) -> bool
    ensures { Decides result ((v ≡ slot_free) ⊎ Holds v) }
{
    if v.id == 0 { is_zero(v) } else { holds(v) }
}
