// The calls of a site, each with what is promised of it as its contract. A function here only makes the call of `site`.
#![tactic(auto)]

ghost use Rattle.std.specs.Prelude.{[]};
ghost use Rattle.plain.specs.Site as P;
ghost use Rattle.store.specs.Meaning.{cells_of};
ghost use Rattle.site.specs.Held.{store, state_of, answer_of};
ghost use Rattle.site.specs.Refusals.{number_or_none};
ghost use Rattle.promised.specs.Promised.{Promised, Begun};

use site::{Answer, Fresh, Reply, Site};

// A fresh site with all cells 0; or an empty one, with the refusal 1, and no cell is touched.
pub fn fresh(committed: &mut [u32], working: &mut [u32]) -> Fresh
    ensures { Begun committed.old working.old (store result.site) (number_or_none result.refused) committed.new working.new }
{
    Site::fresh(committed, working)
}

// Queues the request of a record and answers id, class, place (1 is the head) and slot; or refuses with 1, 2, 3, 4, 14 or 5.
pub fn offer(site: Site, committed: &[u32], working: &[u32], bytes: &[u8]) -> Reply
    ensures { Promised (state_of site committed.now working.now) (P.offer bytes.now) (state_of result.site committed.now working.now) (answer_of result.answer []) }
{
    site.offer(committed, working, bytes)
}

// Confirms a queued id under the next number; answers the commit, or W and the id put back; or refuses with 1, 2, 6, 7, 8 or 9.
pub fn confirm(
    site: Site,
    committed: &mut [u32],
    working: &mut [u32],
    id: u64,
    number: u64,
) -> Reply
    ensures { Promised (state_of site committed.old working.old) (P.confirm id number) (state_of result.site committed.new working.new) (answer_of result.answer []) }
{
    site.confirm(committed, working, id, number)
}

// The head of a class does its next operation; answers id and operations done, that it is executed, its commit, or the place of a query whose entry it
// was, and then the class's committed cells are what is read; or refuses with 1, 2, 10 or 11.
pub fn work(site: Site, committed: &mut [u32], working: &mut [u32], class: u64) -> Reply
    ensures { Promised (state_of site committed.old working.old) (P.work class) (state_of result.site committed.new working.new) (answer_of result.answer (cells_of committed.new class)) }
{
    site.work(committed, working, class)
}

// Begins a query over the classes of a mask, bit c for class c, and answers its place, 1 to 8; or refuses with 1, 2, 17, 18 or 24.
pub fn query(site: Site, committed: &[u32], working: &mut [u32], mask: u16) -> Reply
    ensures { Promised (state_of site committed.now working.old) (P.query mask) (state_of result.site committed.now working.new) (answer_of result.answer []) }
{
    site.query(committed, working, mask)
}

// The committed cell of a class; or refuses with 1, 2, 10 or 12. The site stays as it is.
pub fn read(site: Site, committed: &[u32], working: &[u32], class: u64, cell: u64) -> Answer
    ensures { Promised (state_of site committed.now working.now) (P.read class cell) (state_of site committed.now working.now) (answer_of result []) }
{
    site.read(committed, working, class, cell)
}

// W for a confirmed request, or that it is unconfirmed, and how often it was put back; or refuses with 1, 2 or 8. The site stays as it is.
pub fn look(site: Site, committed: &[u32], working: &[u32], id: u64) -> Answer
    ensures { Promised (state_of site committed.now working.now) (P.look id) (state_of site committed.now working.now) (answer_of result []) }
{
    site.look(committed, working, id)
}
