// Transmit's decision: refused for a reason, or the frame of the highest class that qualifies begins now, if there is one.
ghost use Rattle.std.specs.Prelude.{◌≡◌, not};
ghost use Rattle.std.specs.List.{list_any};
ghost use Rattle.rule.specs.Orders.{head_offered};
ghost use Rattle.frames.specs.Deciding.{Declines, Decides};

use crate::choosing::chosen;
use crate::lengths::{frame_offered, speed_offered};
use crate::{Decided, Frame};
use rule::{Refusal, first};
use timetable::Timetable;

// An empty queue, or a frame's length.
#[tactic(auto, using(crate::proofs::Decisions::head_test))]
fn head_offered(len: u64) -> bool
    ensures { result ≡ head_offered len }
{
    let frame = frame_offered(len);
    (len == 0) | frame
}

// One of the heads is neither.
fn head_wrong(heads: [u64; 8]) -> bool
    ensures { result ≡ list_any (λ n. not (head_offered n)) heads }
{
    heads.iter().any(|h| !head_offered(*h))
}

// Why a transmit is refused, if it is: 14, 13, 17, 12.
fn declined(g: &Timetable, f: Frame, heads: [u64; 8], speed: u64) -> Result<(), Refusal>
    ensures { Declines heads speed g.now f result }
{
    let formed = g.formed();
    let sent = f.formed(g.times.clock);
    let offered = speed_offered(speed);
    let wrong = head_wrong(heads);
    let sending = f.present == 1;
    let good = formed & sent;
    let headed = first(wrong, Refusal::HeadLength, Ok(()));
    let free = first(sending, Refusal::FrameSending, headed);
    let fast = first(!offered, Refusal::Speed, free);
    first(!good, Refusal::MalformedPort, fast)
}

// What a transmit decides, by the lengths at the heads of the eight queues (0: empty) and the speed in Mbit/s, on a timetable and a frame. Heads and speed come
// apart, as C hands them in (include/port.h).
pub fn decide(g: &Timetable, f: Frame, heads: [u64; 8], speed: u64) -> Decided
    ensures { Decides heads speed g.now f result }
{
    match declined(g, f, heads, speed) {
        Err(reason) => Decided {
            answer: Err(reason),
            frame: f,
        },
        Ok(()) => {
            let frame = chosen(g, heads, speed);
            Decided {
                answer: Ok(frame.sending()),
                frame,
            }
        }
    }
}
