// The text of a slot's request, line after line, put into a buffer.
ghost use Rattle.std.specs.Prelude.{◌+◌, ◌<◌, ◌≤◌, ◌≡◌, false, cond, [], ◌∷◌, ◌++◌, length, get_or, take};
ghost use Rattle.io.specs.Counts.{IsPrefixLen};
ghost use Rattle.plain.specs.Record.{uses_second, names};
ghost use Rattle.decimal.specs.Decimal.{blanked};
ghost use Rattle.cells.specs.Codes.{code_byte};
ghost use Rattle.cells.specs.Ops.{op_of, OpOk};
ghost use Rattle.slots.specs.Meaning.{request_of};
ghost use Rattle.slots.specs.Rules.{Holds};
ghost use Rattle.text.specs.Text.{op_line, head_line, text_of};

use super::name::name_of;
use cells::{Code, Op, SECOND};
use decimal::{put, put_number};
use slots::Slot;

// The first line has at most 14 bytes and the line of an operation at most 22, so the longest text has 168.
pub const LONGEST: usize = 168;

// Puts a blank and a number behind the first `at` bytes, and answers where they end.
fn put_blanked(to: &mut [u8], at: usize, n: u32) -> usize
    requires { at + length (blanked (n ∷ [])) ≤ length to.old }
    ensures value { result ≡ at + length (blanked (n ∷ [])) }
    ensures to_after { take result to.new ≡ take at to.old ++ blanked (n ∷ []) }
{
    let behind = put(to, at, b" ");
    put_number(to, behind, n as u64)
}

// Puts the name of an operation.
fn put_name(to: &mut [u8], at: usize, code: Code) -> usize
    requires { at + 4 ≤ length to.old }
    ensures value { result ≡ at + length (get_or names (code_byte code) []) }
    ensures to_after { take result to.new ≡ take at to.old ++ get_or names (code_byte code) [] }
{
    put(to, at, name_of(code))
}

// Puts the second cell where an operation of the code uses one.
fn put_second(to: &mut [u8], at: usize, code: Code, second: u8) -> usize
    requires { at + length (blanked (second ∷ [])) ≤ length to.old }
    ensures value { result ≡ at + length (blanked (cond (get_or uses_second (code_byte code) false) (second ∷ []) [])) }
    ensures to_after { take result to.new ≡ take at to.old ++ blanked (cond (get_or uses_second (code_byte code) false) (second ∷ []) []) }
{
    let byte = u8::from(code);
    if !SECOND[byte as usize] {
        return at;
    }
    put_blanked(to, at, second as u32)
}

// Puts the line of an operation.
fn put_op(to: &mut [u8], at: usize, op: Op) -> usize
    requires op_ok { OpOk op }
    requires at_in_bounds { at + 22 ≤ length to.old }
    ensures upper_bound { result ≤ at + 22 }
    ensures to_after { take result to.new ≡ take at to.old ++ op_line (op_of op) }
{
    let code = Code::try_from(op.code).unwrap();
    let named = put_name(to, at, code);
    let first = put_blanked(to, named, op.cell as u32);
    let second = put_second(to, first, code, op.second);
    let amount = put_blanked(to, second, op.amount);
    put(to, amount, b"\n")
}

// Puts the first line.
fn put_head(to: &mut [u8], id: u32, class: u8) -> usize
    requires { (class < 16) × (14 ≤ length to.old) }
    ensures upper_bound { result ≤ 14 }
    ensures to_after { take result to.new ≡ head_line id class }
{
    let numbered = put_number(to, 0, id as u64);
    let classed = put_blanked(to, numbered, class as u32);
    put(to, classed, b"\n")
}

// Puts the text of a slot that holds a record, and answers its length.
pub fn put_text(to: &mut [u8; LONGEST], slot: Slot) -> usize
    requires { Holds slot }
    ensures prefix_len { IsPrefixLen result to.new }
    ensures to_after { take result to.new ≡ text_of (request_of slot) }
{
    let n = slot.count as usize;
    let mut at = put_head(to, slot.id, slot.class);
    for op in &slot.ops[..n] {
        at = put_op(to, at, *op);
    }
    at
}
