// Runs both sides of each edge of document 01 that is not marked P, and writes a line for each: what is tried, and what is answered.
#![tactic(auto)]

use site::{Answer, Site};

// Writes a word and numbers, and ends the line.
fn say(word: &[u8], numbers: &[u64]) {
    io::write_all(1, word);
    for n in numbers {
        io::write_all(1, b" ");
        io::print_decimal(1, *n);
    }
    io::write_all(1, b"\n");
}

// Writes the answer's word and its numbers.
fn show(answer: Answer) {
    match answer {
        Answer::Refused(n) => say(b" refused", &[n as u64]),
        Answer::Queued {
            id,
            class,
            place,
            slot,
        } => say(
            b" queued",
            &[id as u64, class as u64, place as u64, slot as u64],
        ),
        Answer::Committed {
            id,
            number,
            mark,
            slot,
            backs,
        } => say(
            b" committed",
            &[id as u64, number as u64, mark as u64, slot as u64, backs],
        ),
        Answer::Waiting { id, w, back } => say(b" waiting", &[id as u64, w as u64, back as u64]),
        _ => say(b" other", &[]),
    }
}

// A record of n operations, each adding 1 to a cell, in a class, under an id.
fn booking(id: u8, class: u8, n: u8, cell: u8) -> [u8; 64] {
    let mut b = [0u8; 64];
    b[0] = id;
    b[4] = class;
    b[5] = n;
    for k in 0..n.min(7) {
        let at = 8 + 8 * (k as usize);
        b[at] = 2;
        b[at + 1] = cell;
        b[at + 4] = 1;
    }
    b
}

// A record of one move between two cells.
fn moving(cell: u8, second: u8) -> [u8; 64] {
    let mut b = booking(7, 3, 1, cell);
    b[8] = 4;
    b[10] = second;
    b
}

// Offers bytes to a fresh site and shows the answer.
fn offered(bytes: &[u8]) {
    let mut committed = [0u32; 1024];
    let mut working = [0u32; 1024];
    let site = Site::fresh(&mut committed, &mut working).site;
    show(site.offer(&committed, &working, bytes).answer);
}

// The edges of a record, the one that is refused before the one that is taken.
fn records() {
    io::write_all(1, b"0 operations:");
    offered(&booking(7, 3, 0, 0));
    io::write_all(1, b"1 operation:");
    offered(&booking(7, 3, 1, 0));
    io::write_all(1, b"8 operations:");
    offered(&booking(7, 3, 8, 0));
    io::write_all(1, b"7 operations:");
    offered(&booking(7, 3, 7, 0));
    io::write_all(1, b"class 16:");
    offered(&booking(7, 16, 1, 0));
    io::write_all(1, b"class 15:");
    offered(&booking(7, 15, 1, 0));
    io::write_all(1, b"cell 64:");
    offered(&booking(7, 3, 1, 64));
    io::write_all(1, b"cell 63:");
    offered(&booking(7, 3, 1, 63));
    io::write_all(1, b"id 0:");
    offered(&booking(0, 3, 1, 0));
    io::write_all(1, b"id 1:");
    offered(&booking(1, 3, 1, 0));
    io::write_all(1, b"equal move cells:");
    offered(&moving(5, 5));
    io::write_all(1, b"move cells 5 and 63:");
    offered(&moving(5, 63));
}

// The record as it is, and one byte shorter.
fn lengths(bytes: &[u8]) {
    if 63 <= bytes.len() {
        io::write_all(1, b"63 bytes:");
        offered(&bytes[..63]);
    }
    io::write_all(1, b"64 bytes:");
    offered(bytes);
}

// Offers request n in a class, shows the answer, and hands the site back.
fn one_more(site: Site, committed: &[u32], working: &[u32], n: u8, class: u8) -> Site {
    let b = booking(n, class, 1, 0);
    let r = site.offer(committed, working, &b);
    show(r.answer);
    r.site
}

// A site with requests 1 to 127, in the classes in turn.
fn nearly_full(start: Site, committed: &[u32], working: &[u32]) -> Site {
    let mut site = start;
    for n in 1..128 {
        let b = booking(n, n % 16, 1, 0);
        site = site.offer(committed, working, &b).site;
    }
    site
}

// 128 requests are taken and the 129th refused; after a commit it is taken in the slot just freed.
fn full_house(committed: &mut [u32], working: &mut [u32]) {
    let start = Site::fresh(committed, working);
    let mut site = nearly_full(start.site, &*committed, &*working);
    io::write_all(1, b"request 128:");
    site = one_more(site, &*committed, &*working, 128, 0);
    io::write_all(1, b"request 129:");
    site = one_more(site, &*committed, &*working, 129, 0);
    io::write_all(1, b"confirm 21:");
    let told = site.confirm(committed, working, 21, 1);
    show(told.answer);
    io::write_all(1, b"work 5:");
    let done = told.site.work(committed, working, 5);
    show(done.answer);
    io::write_all(1, b"request 129 again:");
    one_more(done.site, &*committed, &*working, 129, 0);
}

fn main() {
    records();
    lengths(&booking(7, 3, 1, 0));
    let mut committed = [0u32; 1024];
    let mut working = [0u32; 1024];
    full_house(&mut committed, &mut working);
}
