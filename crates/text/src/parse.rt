// A text, read line after line into a slot.
ghost use Rattle.std.specs.Prelude.{◌≤◌, length, drop, MatchOption, MatchResult, IfSome};
ghost use Rattle.text.specs.Lines.{FirstBad};
ghost use Rattle.text.specs.Pieces.{HeadAt, NoHead, Parses};

use super::opline::{BLANK, NEWLINE, op_at};
use cells::CLASSES;
use decimal::number_at;
use slots::{MOST_OPS, Slot};

// The first line, and the place behind it.
#[derive(Clone, Copy)]
struct Head {
    id: u32,
    class: u8,
    next: usize,
}

// The id and class of the first line, where it keeps its rules.
fn head_at(text: &[u8]) -> Option<Head>
    ensures head_at { MatchOption result (NoHead text.now) (λ h. HeadAt text.now h.id h.class (drop h.next text.now)) }
    ensures next_in_bounds { IfSome result (λ h. h.next ≤ length text.now) }
{
    let id = number_at(text, 0, BLANK, u32::MAX as u64)?;
    if id.value == 0 {
        return None;
    }
    let class = number_at(text, id.next, NEWLINE, CLASSES as u64 - 1)?;
    Some(Head {
        id: id.value as u32,
        class: class.value as u8,
        next: class.next,
    })
}

// The first line of a text that no valid text has there, from 1.
#[derive(Clone, Copy, PartialEq, Eq)]
pub struct BadLine {
    pub line: usize,
}

// Reads a text, line after line: the slot of its request, or its first bad line.
pub fn parse(text: &[u8]) -> Result<Slot, BadLine>
    ensures { MatchResult result (λ v. Parses text.now v) (λ bad. FirstBad text.now bad.line) }
{
    let Some(head) = head_at(text) else {
        return Err(BadLine { line: 1 });
    };
    let free = Slot::default();
    let mut ops = free.ops;
    let mut at = head.next;
    let mut k = 0;
    // kept: a line is as long as what it says, so the place goes on by what was read; k counts the operations that the lines gave
    while at < text.len() {
        if k == MOST_OPS {
            return Err(BadLine { line: k + 2 });
        }
        let Some(line) = op_at(text, at) else {
            return Err(BadLine { line: k + 2 });
        };
        ops[k] = line.op;
        at = line.next;
        k += 1;
    }
    if k == 0 {
        return Err(BadLine { line: 2 });
    }
    Ok(Slot {
        id: head.id,
        class: head.class,
        count: k as u8,
        ops: ops,
        ..free
    })
}
