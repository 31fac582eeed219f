// The request record of a slot: 64 bytes.
ghost use Rattle.std.specs.Prelude.{◌≡◌};
ghost use Rattle.text.specs.Pieces.{bytes_of_op, bytes_of_head, bytes_of_record};

use cells::Op;
use decimal::put;
use slots::Slot;
use slots::decode::{FIRST_OP, OP_SIZE, RECORD};

// The eight bytes of an operation.
fn op_bytes(op: Op) -> [u8; OP_SIZE]
    ensures { result ≡ bytes_of_op op }
{
    let [first, second, third, fourth] = op.amount.to_le_bytes();
    [op.code, op.cell, op.second, 0, first, second, third, fourth]
}

// The eight bytes before the operations.
fn head_bytes(id: u32, class: u8, count: u8) -> [u8; FIRST_OP]
    ensures { result ≡ bytes_of_head id class count }
{
    let [first, second, third, fourth] = id.to_le_bytes();
    [first, second, third, fourth, class, count, 0, 0]
}

// The record of a slot.
pub fn record_of(slot: Slot) -> [u8; RECORD]
    ensures { result ≡ bytes_of_record slot }
{
    let mut bytes = [0u8; RECORD];
    let head = head_bytes(slot.id, slot.class, slot.count);
    let mut at = put(&mut bytes, 0, &head);
    for op in &slot.ops {
        let stored = op_bytes(*op);
        at = put(&mut bytes, at, &stored);
    }
    bytes
}
