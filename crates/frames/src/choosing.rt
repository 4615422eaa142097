// The choice of a frame: the octet of the classes that qualify, formed bit by bit, and the highest of them from its leading zeros.
ghost use Rattle.std.specs.Prelude.{◌≡◌, cond, ◌/◌, ◌≤◌, ◌<◌};
ghost use Rattle.std.proofs.Math.Option.{some};
ghost use Rattle.rule.specs.Limits.{largest_instant};
ghost use Rattle.rule.specs.Gates.{is_open};
ghost use Rattle.rule.specs.Choice.{highest};
ghost use Rattle.timetable.specs.Coding.{decode};
ghost use Rattle.timetable.specs.Checks.{Fine};
ghost use Rattle.frames.specs.Frame.{encode_frame};
ghost use Rattle.frames.specs.Choosing.{Sets, Asks, Offered, Near, Begins, begun};

use crate::Frame;
use crate::ahead::look_ahead;
use crate::lengths::octet_time;
use timetable::Timetable;

// What a transmit asks for: the classes that have a frame, when the last octet of the last of their frames is out, the time of the gap between frames, and
// when the last octet would be out of the frame of each of the eight classes.
#[derive(Clone, Copy)]
struct Ends {
    wanted: u8,
    last: u64,
    gap: u64,
    each: [u64; 8],
}

// The octet with one class's bit set, if it is to be.
#[tactic(auto, using(crate::proofs::Octets::sets_bit, crate::proofs::Octets::sets_none))]
pub fn with_bit(octet: u8, class: u8, bit: bool) -> u8
    requires { class < 8 }
    ensures { Sets class bit octet result }
{
    if bit { octet | (1 << class) } else { octet }
}

// What is asked for at t. A frame takes 8,000 / speed ns for each octet of it and for 8 more, the gap takes 12 times that.
fn asked(heads: [u64; 8], speed: u64, t: u64) -> Ends
    requires offered { Offered heads speed }
    requires t_le_largest_instant { t ≤ largest_instant }
    ensures { Asks heads speed t 8 result.wanted result.last result.each × (result.gap ≡ 96_000 / speed) }
{
    let octet_time = octet_time(speed);
    let mut wanted: u8 = 0;
    let mut last = t;
    let mut each = [0u64; 8];
    // The place is the class.
    for (k, len) in heads.iter().enumerate() {
        let end = t + (len + 8) * octet_time;
        each[k] = end;
        let there = *len != 0;
        wanted = with_bit(wanted, k as u8, there);
        if there {
            last = last.max(end);
        }
    }
    let gap = 12 * octet_time;
    Ends {
        wanted,
        last,
        gap,
        each,
    }
}

// The highest class of an octet that has one: 7 less its leading zeros.
#[tactic(auto, using(crate::proofs::Classes::top_is))]
fn top(octet: u8) -> u8
    requires { 0 < octet }
    ensures { (result < 8) × (highest (is_open octet) 8 ≡ some result) }
{
    (7 - u8::leading_zeros(octet)) as u8
}

// The frame of the highest of an octet's classes, begun at t; none if it has none.
#[tactic(auto, using(crate::proofs::Classes::begins_top))]
fn frame_for(octet: u8, ends: [u64; 8], gap: u64, t: u64) -> Frame
    requires { Near ends gap }
    ensures { Begins octet ends gap t result }
{
    if octet == 0 {
        return Frame::none();
    }
    let class = top(octet);
    let k = class as usize;
    let last = ends[k];
    let end = last + gap;
    Frame {
        present: 1,
        class,
        counted: 0,
        start: t,
        last,
        end,
    }
}

// The frame that is chosen now, or none. The look ahead counts on what is shown if no further act comes.
pub fn chosen(g: &Timetable, heads: [u64; 8], speed: u64) -> Frame
    requires fine { Fine g.now }
    requires offered { Offered heads speed }
    ensures { result ≡ encode_frame (begun heads speed (decode g.now)) }
{
    let t = g.times.clock;
    let a = asked(heads, speed, t);
    let known = look_ahead(g, a.wanted, &a.each, a.last);
    frame_for((known.left | known.ended) & a.wanted, a.each, a.gap, t)
}
