// Operations, and the cells of a class.
#![tactic(auto)]

ghost use Rattle.std.specs.Prelude.{◌≡◌, ◌*◌, ◌<◌, false, length, if◌then◌else◌};
ghost use Rattle.std.proofs.Math.Option.{none, some};
ghost use Rattle.plain.specs.Sizes.{class_count, cell_count};
ghost use Rattle.plain.specs.Ops as P;
ghost use Rattle.plain.specs.Decides.{Decides};
ghost use Rattle.cells.specs.Codes.{Decodes, code_byte};
ghost use Rattle.cells.specs.Ops.{cells_of, spliced, no_op, op_of, OpOk};

use std::num::wrapping_add_u32;

// Classes are 0 to 15.
pub const CLASSES: usize = 16;

// The cells of a class are 0 to 63.
pub const CELLS: usize = 64;

// A run has the cells of all classes, one class after another.
pub const RUN: usize = CLASSES * CELLS;

// By operation code: does the operation use its second cell?
// kept: a table by the byte of the code, by a rule of the project (docs/DECISIONS.md, Forms).
pub const SECOND: [bool; 5] = [false, false, false, false, true];

// What an operation does. In a record it has one of the codes 1 to 4.
#[derive(Clone, Copy, PartialEq, Eq)]
pub enum Code {
    Put = 1,
    Add = 2,
    Need = 3,
    Move = 4,
}

// A byte that is no operation's code.
#[derive(Clone, Copy, PartialEq, Eq)]
pub struct NoCode;

impl TryFrom<u8> for Code {
    type Error = NoCode;

    ghost try_from_gives = { Decodes };

    fn try_from(byte: u8) -> Result<Self, NoCode> {
        match byte {
            1 => Ok(Code::Put),
            2 => Ok(Code::Add),
            3 => Ok(Code::Need),
            4 => Ok(Code::Move),
            _ => Err(NoCode),
        }
    }
}

impl From<Code> for u8 {
    ghost from_gives = { λ code byte. byte ≡ code_byte code };

    fn from(code: Code) -> u8 {
        code as u8
    }
}

// kept: the code as a byte, since C hands operations in with any bytes.
#[repr(C)]
#[derive(Clone, Copy, Default, PartialEq, Eq)]
pub struct Op {
    pub code: u8,
    pub cell: u8,
    pub second: u8,
    pub amount: u32,
}

impl Op {
    // Whether an operation is all zero.
    pub fn is_zero(self) -> bool
        ensures { Decides result (self ≡ no_op) }
    {
        self == Op::default()
    }
}

// Whether an operation keeps the rules of a valid record.
pub fn op_ok(op: Op) -> bool
    ensures { Decides result (OpOk op) }
{
    if Code::try_from(op.code).is_err() || CELLS <= op.cell as usize {
        return false;
    }
    if SECOND[op.code as usize] {
        ((op.second as usize) < CELLS) & (op.cell != op.second)
    } else {
        op.second == 0
    }
}

// One operation on the cells of its class. False: it declines, and leaves them.
pub fn carry(cells: &mut [u32], op: Op) -> bool
    requires { (length cells.old ≡ cell_count) × OpOk op }
    ensures cells_value { P.carry (op_of op) cells.old ≡ (if result then some cells.new else none) }
    ensures cells_unchanged { result ≡ false → cells.new ≡ cells.old }
{
    let k = op.cell as usize;
    let j = op.second as usize;
    let amount = op.amount;
    match Code::try_from(op.code).unwrap() {
        Code::Put => {
            cells[k] = amount;
            true
        }
        Code::Add => {
            cells[k] = wrapping_add_u32(cells[k], amount);
            true
        }
        Code::Need => amount <= cells[k],
        Code::Move => give(cells, k, j, amount),
    }
}

// A move of an amount from cell k to cell j. False: it declines, and leaves the cells.
fn give(cells: &mut [u32], k: usize, j: usize, amount: u32) -> bool
    requires { (k < length cells.old) × (j < length cells.old) }
    ensures cells_value { P.carry (P.move k j amount) cells.old ≡ (if result then some cells.new else none) }
    ensures cells_unchanged { result ≡ false → cells.new ≡ cells.old }
{
    if cells[k] < amount {
        return false;
    }
    if u32::MAX - amount < cells[j] {
        return false;
    }
    let given = cells[j] + amount;
    cells[k] = cells[k] - amount;
    cells[j] = given;
    true
}

// `to` becomes `from`.
// kept: a loop, since copy_from_slice asks a host that links the archive for memmove, which nothing else there needs.
pub fn copy_cells(to: &mut [u32], from: &[u32])
    requires { length to.old ≡ length from.now }
    ensures { to.new ≡ from.now }
{
    for i in 0..from.len() {
        to[i] = from[i];
    }
}

// The cells of class c of `to` become those of `from`.
pub fn copy_class(to: &mut [u32], from: &[u32], c: usize)
    requires { (length to.old ≡ class_count * cell_count) × (length from.now ≡ class_count * cell_count) × (c < class_count) }
    ensures { to.new ≡ spliced to.old (cell_count * c) cell_count (cells_of from.now c) }
{
    let a = CELLS * c;
    let b = a + CELLS;
    copy_cells(&mut to[a..b], &from[a..b]);
}

// Whether two runs of cells are the same. All are compared, without a branch.
// kept: by hand, since == leaves at the first cells that differ.
pub fn same_cells(a: &[u32], b: &[u32]) -> bool
    requires { length a.now ≡ length b.now }
    ensures { Decides result (a.now ≡ b.now) }
{
    let mut same = true;
    for i in 0..a.len() {
        same = same & (a[i] == b[i]);
    }
    same
}
