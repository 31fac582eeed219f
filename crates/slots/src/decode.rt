// The request record of 64 bytes, read into a slot.
ghost use Rattle.std.specs.Prelude.{◌≡◌, true, false, ◌+◌, ◌<◌, ◌≤◌, length, IfSome, IfNone};
ghost use Rattle.plain.specs.Sizes.{most_ops, record_size};
ghost use Rattle.plain.specs.Record.{number, is_record};
ghost use Rattle.plain.specs.Decides.{Decides};
ghost use Rattle.slots.specs.Rules.{SpareZero, ReadInto, op_within, ops_within, slot_within};

use super::{MOST_OPS, Slot, holds};
use cells::Op;

// A record has 64 bytes: the id, the class, the number of operations, two bytes that are zero, and seven operations.
pub const RECORD: usize = 64;

// Where these stand.
const CLASS_AT: usize = 4;

const COUNT_AT: usize = 5;

const SPARE_AT: usize = 6;

pub const FIRST_OP: usize = 8;

// An operation has 8 bytes: code, cell, second cell, one that is zero, and a 4-byte amount.
pub const OP_SIZE: usize = 8;

// The 4-byte number that begins at byte `at`, low byte first.
pub fn word_at(bytes: &[u8], at: usize) -> u32
    requires { at + 4 ≤ length bytes.now }
    ensures { result ≡ number bytes.now at }
{
    u32::from_le_bytes([bytes[at], bytes[at + 1], bytes[at + 2], bytes[at + 3]])
}

// Operation k of a record.
fn op_at(bytes: &[u8], k: usize) -> Op
    requires { (length bytes.now ≡ record_size) × (k < most_ops) }
    ensures { result ≡ op_within bytes.now k }
{
    let at = FIRST_OP + OP_SIZE * k;
    Op {
        code: bytes[at],
        cell: bytes[at + 1],
        second: bytes[at + 2],
        amount: word_at(bytes, at + 4),
    }
}

// The seven operations of a record.
fn ops_in(bytes: &[u8]) -> [Op; MOST_OPS]
    requires { length bytes.now ≡ record_size }
    ensures { result ≡ ops_within bytes.now 0 most_ops }
{
    std::array::from_fn(|k| op_at(bytes, k))
}

// The slot that the bytes of a record name.
fn slot_in(bytes: &[u8]) -> Slot
    requires { length bytes.now ≡ record_size }
    ensures { result ≡ slot_within bytes.now }
{
    Slot {
        id: word_at(bytes, 0),
        class: bytes[CLASS_AT],
        count: bytes[COUNT_AT],
        ops: ops_in(bytes),
        ..Slot::default()
    }
}

// Whether the bytes that no field has are zero.
fn spare_zero(bytes: &[u8]) -> bool
    requires { length bytes.now ≡ record_size }
    ensures { Decides result (SpareZero bytes.now) }
{
    bytes[SPARE_AT] == 0
        && bytes[SPARE_AT + 1] == 0
        && (0..MOST_OPS).all(|k| bytes[FIRST_OP + OP_SIZE * k + 3] == 0)
}

// The request of 64 bytes, as a new slot; none where they are no record.
pub fn read_record(bytes: &[u8]) -> Option<Slot>
    ensures some { IfSome result (ReadInto bytes.now true) }
    ensures none { IfNone result (is_record bytes.now ≡ false) }
{
    if bytes.len() != RECORD || !spare_zero(bytes) {
        return None;
    }
    let slot = slot_in(bytes);
    if holds(slot) { Some(slot) } else { None }
}
