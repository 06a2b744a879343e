// What is read and what is written, turn by turn.
use crate::LARGE;
use crate::desk::Desk;
use crate::place::{HALF, Place};
use std::io::{Print, Read};
use text::front;

// What waits of the bytes that were read, or else a read. At the input's end the last line, which has perhaps no newline, is given one.
fn fetch(rt: &HostRuntime, input: &mut [u8; LARGE], w: Place) -> Place {
    if w.rest > 0 {
        return Place {
            left: w.rest,
            rest: 0,
            ..w
        };
    }
    let got = rt.stdin().read(input).unwrap_or(0);
    let last = got == 0 && w.kept > 0;
    if last {
        input[0] = b'\n';
    }
    Place {
        from: 0,
        left: if last { 1 } else { got },
        more: got > 0,
        ..w
    }
}

// Writes out what is collected, where that is much or nothing more comes; whether to go on. Where a write fails, the rest is left.
fn flush(rt: &HostRuntime, desk: &mut Desk) -> bool {
    let w = desk.place;
    let goes_on = w.more || w.rest > 0;
    if goes_on && w.at <= HALF {
        return true;
    }
    desk.place.at = 0;
    let written = rt.stdout().write_all(front(&desk.text, w.at)).is_ok();
    written && goes_on
}

// Reads once where nothing of what was read waits, answers as many lines as there is room for, and writes out what is collected.
fn turn(rt: &HostRuntime, desk: &mut Desk, input: &mut [u8; LARGE]) -> bool {
    desk.place = fetch(rt, input, desk.place);
    desk.feed(input);
    flush(rt, desk)
}

// Nothing says that the input ends, so the turns are counted: by a number that no run uses up.
pub(crate) fn serve(rt: &HostRuntime, desk: &mut Desk, input: &mut [u8; LARGE]) {
    for _ in 0..u64::MAX {
        if !turn(rt, desk, input) {
            return;
        }
    }
}
