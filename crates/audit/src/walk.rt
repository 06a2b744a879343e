// One pair's queue: links, order and messages together.
ghost use Rattle.std.specs.Prelude.{◌≡◌};
ghost use Rattle.rules.specs.Card.{small};
ghost use Rattle.rules.specs.Passes.Course.{line_fits, course_ends};
ghost use Rattle.rules.specs.Passes.Queue.{walk_from, step, walk_ends};
ghost use Rattle.rules.specs.Passes.Stage.{stage_ends};
ghost use Rattle.rules.specs.Passes.Tests.{◌and◌};
ghost use Rattle.message.specs.Capped.{tidy};

use crate::links::{trail_ends, trail_from, trail_step};
use crate::messages::{stage_ends, stage_step};
use crate::order::{course_ends, course_from, course_step, line_fits};
use message::State;
use rules::carried::{Course, Stage, Walk};
use rules::{Line, Queue, Slot, Standing};

pub(crate) fn walk_from(q: Queue) -> Walk
    ensures { result ≡ walk_from small.none q }
{
    Walk {
        trail: trail_from(q),
        course: course_from(),
        stage: Some(Stage::Start),
    }
}

pub(crate) fn audit_step(t: Standing, w: Walk, i: Slot) -> Walk
    ensures { result ≡ step small.slots (tidy t) w i }
{
    Walk {
        trail: trail_step(w.trail, i),
        course: course_step(t.settings, t.line, w.course, i.packet),
        stage: stage_step(t.settings, w.stage, i.packet),
    }
}

fn ready_ends(l: Line, order: Option<Course>, messages: Option<Stage>) -> bool
    ensures { result ≡ (line_fits l and course_ends l order and stage_ends messages) }
{
    line_fits(l) && course_ends(l, order) && stage_ends(messages)
}

pub(crate) fn walk_ends(t: Standing, q: Queue, w: Walk) -> bool
    ensures { result ≡ walk_ends small.none t q w }
{
    trail_ends(q, w.trail)
        && (t.state != State::Ready as u32 || ready_ends(t.line, w.course, w.stage))
}
