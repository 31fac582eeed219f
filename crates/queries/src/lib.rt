// The table of open queries: for each of 8 places the classes still to read, bit by bit, and the count of confirmations when the query began. A place is
// free, and all zero, where no class is left.
#![tactic(auto)]

ghost use Rattle.std.specs.Prelude.{◌≡◌, cond, eqb, ◌<◌, IfSome, IfNone};
ghost use Rattle.plain.specs.Site.{named};
ghost use Rattle.queries.specs.Table.{Grown, Shrunk, lowest_free_place};

use usedmap::{bit, with_bit};

#[repr(C)]
#[derive(Clone, Copy, Default, PartialEq, Eq)]
pub struct Query {
    pub classes: u16,
    pub begun: u32,
}

// Whether a mask names class c.
pub fn names(mask: u16, c: u32) -> bool
    requires { c < 16 }
    ensures { result ≡ named mask c }
{
    bit(u64::from(mask), c)
}

// The mask with class c more.
pub fn with_class(mask: u16, c: u32) -> u16
    requires { c < 16 }
    ensures { Grown mask c result }
{
    with_bit(u64::from(mask), c, true) as u16
}

// The mask without class c.
pub fn without_class(mask: u16, c: u32) -> u16
    requires { c < 16 }
    ensures { Shrunk mask c result }
{
    with_bit(u64::from(mask), c, false) as u16
}

// A query that has class c to read too, and began at this count of confirmations.
pub fn with(q: Query, c: u32, count: u32) -> Query
    requires { c < 16 }
    ensures { Grown q.classes c result.classes × (result.begun ≡ count) }
{
    Query {
        classes: with_class(q.classes, c),
        begun: count,
    }
}

// What is left of a query when class c is read: it is free, and all zero, where no class is left.
pub fn without(q: Query, c: u32) -> Query
    requires { c < 16 }
    ensures { Shrunk q.classes c result.classes × (result.begun ≡ cond (eqb result.classes 0) 0 q.begun) }
{
    let classes = without_class(q.classes, c);
    if classes == 0 {
        Query::default()
    } else {
        Query {
            classes,
            begun: q.begun,
        }
    }
}

// The lowest index of the table that is free; none where all are taken.
pub fn lowest_free(table: &[Query; 8]) -> Option<usize>
    ensures some { IfSome result (λ p. (p ≡ lowest_free_place table.now) × (p < 8)) }
    ensures none { IfNone result (lowest_free_place table.now ≡ 8) }
{
    table.iter().position(|q| q.classes == 0)
}
