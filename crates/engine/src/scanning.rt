// The scan of a pair's queue before a call decides: what each call seeks, and one slot of the walk that seeks it.
ghost use Rattle.std.specs.Prelude.{◌≡◌, ◌||◌, if◌then◌else◌};
ghost use Rattle.message.specs.Capped.{tidy};
ghost use Rattle.rules.specs.Acknowledge.{inside};
ghost use Rattle.outcomes.specs.Deciding.{bare};
ghost use Rattle.engine.specs.Scanning.{seek_if, sought, seek_step, wants, main_seek, read_seek, search_for, begin_scan, scan_step};

use crate::{Ask, Scan, Search, Seek};
use message::{after_x, covers, is_inside, is_read, stays};
use outcomes::{Found, bound_of};
use rules::{Packet, Pair, Slot, Standing};

fn is_sought(t: Standing, k: Option<Seek>, p: Packet) -> bool
    ensures { result ≡ sought (tidy t) k p }
{
    match k {
        None => false,
        Some(Seek::Read) => is_read(p),
        Some(Seek::Waiting) => after_x(t, p),
        Some(Seek::Staying(b)) => stays(b, t, p),
        Some(Seek::Covering(r)) => covers(t.settings, r, p),
    }
}

// A search goes on until it has found one.
fn seek_step(t: Standing, left: u32, at: u32, p: Packet, c: Search) -> Search
    ensures { result ≡ seek_step (tidy t) left at p c }
{
    if c.found.is_none() && is_sought(t, c.seek, p) {
        let found = Found {
            left,
            slot: at,
            packet: p,
        };
        Search {
            found: Some(found),
            ..c
        }
    } else {
        c
    }
}

fn wants(c: Search) -> bool
    ensures { result ≡ wants c }
{
    c.seek.is_some() && c.found.is_none()
}

// Only where the answer turns on it.
fn seek_inside(t: Standing, r: u32, k: Seek) -> Option<Seek>
    ensures { result ≡ seek_if (inside r (bare t)) k }
{
    is_inside(t.line, r).then_some(k)
}

fn main_seek(t: Standing, ask: Ask) -> Option<Seek>
    ensures { result ≡ main_seek t ask }
{
    match ask {
        Ask::Post { post } => post.fenced.then_some(Seek::Read),
        Ask::Emit { .. } => Some(Seek::Waiting),
        Ask::Acknowledge { psn, syndrome } => {
            seek_inside(t, psn, Seek::Staying(bound_of(psn, syndrome)))
        }
        Ask::Respond { psn, .. } => seek_inside(t, psn, Seek::Staying(psn)),
        _ => None,
    }
}

fn read_seek(t: Standing, ask: Ask) -> Option<Seek>
    ensures { result ≡ read_seek t ask }
{
    match ask {
        Ask::Respond { psn, .. } => seek_inside(t, psn, Seek::Covering(psn)),
        _ => None,
    }
}

fn search_for(seek: Option<Seek>) -> Search
    ensures { result ≡ search_for seek }
{
    Search { seek, found: None }
}

// How many slots are to be looked at, of so many.
fn wanted(main: Search, read: Search, held: u32) -> u32
    ensures { result ≡ (if wants main || wants read then held else 0) }
{
    if wants(main) || wants(read) { held } else { 0 }
}

// A queue is walked only where the audit passed and something is wanted.
pub fn begin_scan(v: Option<u32>, p: Pair, ask: Ask) -> Scan
    ensures { result ≡ begin_scan v p ask }
{
    let main = search_for(main_seek(p.standing, ask));
    let read = search_for(read_seek(p.standing, ask));
    Scan {
        left: if v.is_some() {
            wanted(main, read, p.queue.held)
        } else {
            0
        },
        at: p.queue.first,
        standing: p.standing,
        main,
        read,
    }
}

// One slot on; it ends once nothing is wanted any more.
pub fn scan_step(w: Scan, i: Slot) -> Scan
    ensures { result ≡ scan_step w i }
{
    let main = seek_step(w.standing, w.left, w.at, i.packet, w.main);
    let read = seek_step(w.standing, w.left, w.at, i.packet, w.read);
    Scan {
        left: wanted(main, read, w.left.saturating_sub(1)),
        at: i.link,
        main,
        read,
        ..w
    }
}
