// The ids of the last 256 confirmations, that of number n at place n mod 256: what each of their sound rules asks, decided by one walk.
// The numbers that are lent are of the slots first, then of the queries; only the slots' are looked at.
#![tactic(auto)]

ghost use Rattle.std.specs.Prelude.{◌<◌, ◌≤◌, ◌≡◌, true};
ghost use Rattle.plain.specs.Site.{Recent};
ghost use Rattle.plain.specs.Decides.{Decides};
ghost use Rattle.store.specs.Checks.{nth, InUse, Filled, KeptApart, Among, MatchesAll, Matching, KeptOk};
ghost use Rattle.kept.specs.Marks.{MarkedUpTo, Marks};

use checks::{CLASS_PLACES, SLOTS};

// As many ids are kept.
pub const KEPT: usize = 256;

// Ids are told apart by their low twelve bits first: an id whose mark is not set is not there.
const MARKS: usize = 4096;

// Whether place p is that of a number given: all are, once 256 numbers were.
fn in_use(p: usize, confirmations: u32) -> bool
    requires { p < 256 }
    ensures { Decides result (InUse confirmations p) }
{
    if KEPT <= confirmations as usize {
        return true;
    }
    if p == 0 {
        return false;
    }
    p <= confirmations as usize
}

// "Kept ids are not 0" and "unused places are zero".
fn filled(kept: &[u32; KEPT], confirmations: u32) -> bool
    ensures { Decides result (Filled confirmations kept.now) }
{
    for (p, id) in kept.iter().enumerate() {
        if in_use(p, confirmations) != (*id != 0) {
            return false;
        }
    }
    true
}

// Whether an id is among the first len.
pub fn among(kept: &[u32; KEPT], len: usize, id: u32) -> bool
    requires { len ≤ 256 }
    ensures { Decides result (Among kept.now len id) }
{
    kept[..len].contains(&id)
}

// The kept ids and their marks.
#[derive(Clone, Copy)]
struct Seen {
    kept: [u32; KEPT],
    marks: [u8; MARKS],
}

impl Seen {
    // Whether an id, but 0, is among the first len: only one whose mark is set is looked for.
    fn stands(&self, len: usize, id: u32) -> bool
        requires { (len ≤ 256) × MarkedUpTo self.now.kept self.now.marks len }
        ensures { Decides result ((0 < id) × Among self.now.kept len id) }
    {
        if id == 0 {
            return false;
        }
        if self.marks[id as usize % MARKS] == 0 {
            return false;
        }
        among(&self.kept, len, id)
    }

    // "Kept ids differ": whether they do, and if so a mark for each.
    fn mark(&mut self) -> bool
        ensures kept { self.new.kept ≡ self.old.kept }
        ensures decides { Decides result (KeptApart self.old.kept) }
        ensures marks { result ≡ true → Marks self.old.kept self.new.marks }
    {
        for p in 0..KEPT {
            let id = self.kept[p];
            if self.stands(p, id) {
                return false;
            }
            self.marks[id as usize % MARKS] = 1;
        }
        true
    }

    // Whether a queued request with this number and id has a kept id exactly if its number is kept, and then the one under it.
    fn matches(&self, confirmations: u32, number: u32, id: u32) -> bool
        requires { Marks self.now.kept self.now.marks × Filled confirmations self.now.kept × KeptApart self.now.kept × (0 < id) }
        ensures { Decides result (MatchesAll confirmations self.now.kept number id) }
    {
        if is_recent(number, confirmations) {
            return self.kept[number as usize % KEPT] == id;
        }
        !self.stands(KEPT, id)
    }

    // "A queued request has a kept id exactly if its number is kept, and then the one under it."
    fn all_match<'a>(
        &'a self,
        ids: &'a [u32; SLOTS],
        numbers: &'a [u32; CLASS_PLACES],
        confirmations: u32,
    ) -> bool
        requires { Marks self.now.kept self.now.marks × Filled confirmations self.now.kept × KeptApart self.now.kept }
        ensures { Decides result (Matching (nth ids.now) (nth numbers.now) confirmations self.now.kept) }
    {
        for (i, id) in ids.iter().enumerate() {
            if *id != 0 {
                if !self.matches(confirmations, numbers[i], *id) {
                    return false;
                }
            }
        }
        true
    }
}

// Whether a number is among the last 256.
fn is_recent(number: u32, confirmations: u32) -> bool
    ensures { Decides result (Recent confirmations number) }
{
    if number == 0 {
        return false;
    }
    if confirmations < number {
        return false;
    }
    confirmations - number < KEPT as u32
}

// Whether the kept ids follow their sound rules, with the slots' ids and numbers.
pub fn kept_ok<'a>(
    ids: &'a [u32; SLOTS],
    numbers: &'a [u32; CLASS_PLACES],
    kept: [u32; KEPT],
    confirmations: u32,
) -> bool
    ensures { Decides result (KeptOk (nth ids.now) (nth numbers.now) confirmations kept) }
{
    let mut seen = Seen {
        kept,
        marks: [0; MARKS],
    };
    if !filled(&seen.kept, confirmations) {
        return false;
    }
    if !seen.mark() {
        return false;
    }
    seen.all_match(ids, numbers, confirmations)
}
