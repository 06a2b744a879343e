// The order of a ready pair's packets: each starts where the one before ended, by its distance from U.
ghost use Rattle.std.specs.Prelude.{◌≡◌, ◌+◌, ◌-◌, leb, None, Some, if◌then◌else◌};
ghost use Rattle.psn.specs.Psn.{distance};
ghost use Rattle.rules.specs.Message.{span};
ghost use Rattle.rules.specs.Passes.Course.{course_from, onward, first_fits, next_fits, course_step, stands, line_fits, course_ends};
ghost use Rattle.message.specs.Capped.{capped};

use message::span;
use psn::Psn;
use rules::carried::Course;
use rules::{Line, Packet, Settings};

pub(crate) fn course_from() -> Option<Course>
    ensures { result ≡ course_from }
{
    Some(Course {
        place: 0,
        x: false,
        h: false,
    })
}

fn onward(l: Line, place: u64, w: Course, p: Packet) -> Course
    ensures { result ≡ onward l place w p }
{
    Course {
        place,
        x: w.x || l.x == p.psn,
        h: w.h || l.h == p.psn,
    }
}

fn first_fits(s: Settings, l: Line, p: Packet) -> bool
    ensures { result ≡ first_fits (capped s) l p }
{
    let gone = Psn::distance(p.psn, l.u);
    let all = span(s, p);
    p.psn < Psn::COUNT && gone < all && (gone == 0 || all - gone <= Psn::distance(l.u, l.h))
}

fn next_fits(l: Line, w: Course, p: Packet) -> bool
    ensures { result ≡ next_fits l w p }
{
    p.psn < Psn::COUNT && u64::from(Psn::distance(l.u, p.psn)) == w.place
}

fn first_step(s: Settings, l: Line, w: Course, p: Packet) -> Option<Course>
    ensures { result ≡ (if first_fits (capped s) l p then Some (onward l (span (capped s) p - distance p.psn l.u) w p) else None) }
{
    if first_fits(s, l, p) {
        let left = span(s, p) - Psn::distance(p.psn, l.u);
        Some(onward(l, u64::from(left), w, p))
    } else {
        None
    }
}

fn next_step(s: Settings, l: Line, w: Course, p: Packet) -> Option<Course>
    ensures { result ≡ (if next_fits l w p then Some (onward l (w.place + span (capped s) p) w p) else None) }
{
    if next_fits(l, w, p) {
        Some(onward(l, w.place + u64::from(span(s, p)), w, p))
    } else {
        None
    }
}

pub(crate) fn course_step(s: Settings, l: Line, w: Option<Course>, p: Packet) -> Option<Course>
    ensures { result ≡ course_step (capped s) l w p }
{
    let w = w?;
    if w.place == 0 {
        first_step(s, l, w, p)
    } else {
        next_step(s, l, w, p)
    }
}

fn stands(l: Line, a: u32, start: bool) -> bool
    ensures { result ≡ stands l a start }
{
    a == l.u || a == l.n || start
}

pub(crate) fn line_fits(l: Line) -> bool
    ensures { result ≡ line_fits l }
{
    let x = Psn::distance(l.u, l.x);
    let h = Psn::distance(l.u, l.h);
    let n = Psn::distance(l.u, l.n);
    l.u < Psn::COUNT
        && l.x < Psn::COUNT
        && l.h < Psn::COUNT
        && l.n < Psn::COUNT
        && x <= h
        && h <= n
        && n <= Psn::HALF
}

pub(crate) fn course_ends(l: Line, w: Option<Course>) -> bool
    ensures { result ≡ course_ends l w }
{
    w.is_some_and(|w| {
        w.place == u64::from(Psn::distance(l.u, l.n)) && stands(l, l.x, w.x) && stands(l, l.h, w.h)
    })
}
