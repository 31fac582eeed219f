// The line of an operation, read from a place in a text.
ghost use Rattle.std.specs.Prelude.{◌≤◌, length, drop, MatchOption, IfSome};
ghost use Rattle.plain.specs.Decides.{Decides};
ghost use Rattle.cells.specs.Codes.{code_byte};
ghost use Rattle.text.specs.Pieces.{NameAt, NoName, SecondAt, NoSecond, OpLineAt, NoOpLine, Begins};

use super::name::name_of;
use cells::{Code, Op, SECOND, op_ok};
use decimal::{Number, number_at};

// What splits the numbers of a line, and what ends it.
pub const BLANK: u8 = b' ';

pub const NEWLINE: u8 = b'\n';

// Whether a word and a blank stand at `at`.
fn begins(text: &[u8], at: usize, word: &[u8]) -> bool
    requires { at ≤ length text.now }
    ensures { Decides result (Begins word.now (drop at text.now)) }
{
    let rest = &text[at..];
    if !rest.starts_with(word) {
        return false;
    }
    match rest.get(word.len()) {
        Some(byte) => *byte == BLANK,
        None => false,
    }
}

// An operation's code, and the place behind its name and the blank.
#[derive(Clone, Copy)]
struct Named {
    code: Code,
    next: usize,
}

// The code whose name stands at `at` with a blank behind it.
fn name_at(text: &[u8], at: usize) -> Option<Named>
    requires { at ≤ length text.now }
    ensures name_at { MatchOption result (NoName (drop at text.now)) (λ n. NameAt (drop at text.now) (code_byte n.code) (drop n.next text.now)) }
    ensures next_in_bounds { IfSome result (λ n. n.next ≤ length text.now) }
{
    for code in [Code::Put, Code::Add, Code::Need, Code::Move] {
        let name = name_of(code);
        if begins(text, at, name) {
            return Some(Named {
                code: code,
                next: at + name.len() + 1,
            });
        }
    }
    None
}

// The second cell that stands at `at` with a blank behind it, where an operation of the code uses one; else 0.
fn second_at(text: &[u8], at: usize, code: Code) -> Option<Number>
    requires { at ≤ length text.now }
    ensures second_at { MatchOption result (NoSecond (code_byte code) (drop at text.now)) (λ n. SecondAt (drop at text.now) (code_byte code) n.value (drop n.next text.now)) }
    ensures next_in_bounds { IfSome result (λ n. n.next ≤ length text.now) }
{
    let byte = u8::from(code);
    if SECOND[byte as usize] {
        return number_at(text, at, BLANK, u8::MAX as u64);
    }
    Some(Number { value: 0, next: at })
}

// An operation that was read, and the place behind its line.
#[derive(Clone, Copy)]
pub struct OpLine {
    pub op: Op,
    pub next: usize,
}

// The operation whose line stands at `at`, where one does and keeps its rules.
pub fn op_at(text: &[u8], at: usize) -> Option<OpLine>
    requires { at ≤ length text.now }
    ensures op_line_at { MatchOption result (NoOpLine (drop at text.now)) (λ l. OpLineAt (drop at text.now) l.op (drop l.next text.now)) }
    ensures next_in_bounds { IfSome result (λ l. l.next ≤ length text.now) }
{
    let named = name_at(text, at)?;
    let cell = number_at(text, named.next, BLANK, u8::MAX as u64)?;
    let second = second_at(text, cell.next, named.code)?;
    let amount = number_at(text, second.next, NEWLINE, u32::MAX as u64)?;
    let op = Op {
        code: u8::from(named.code),
        cell: cell.value as u8,
        second: second.value as u8,
        amount: amount.value as u32,
    };
    if !op_ok(op) {
        return None;
    }
    Some(OpLine {
        op: op,
        next: amount.next,
    })
}
