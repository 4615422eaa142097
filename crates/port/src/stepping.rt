// Step: the clock moves to a goal, and each change of the octet shown is written into two lent buffers, instant and octet, from place 0 on; every other
// place stays as it was. Where a change has no room the clock stands 1 ns before it. A refused step hands back the port that it got and writes nothing.
ghost use Rattle.std.specs.Prelude.{◌≡◌};
ghost use Rattle.rule.specs.Timetable.{shown};
ghost use Rattle.rule.proofs.Walk.{shut_in};
ghost use Rattle.timetable.specs.Coding as timetable;
ghost use Rattle.frames.specs.Frame.{decode_frame};
ghost use Rattle.port.specs.Updates.{forgotten_frame};
ghost use Rattle.port.specs.Meeting.{Legible, MetBy, MetOn};
ghost use Rattle.port.specs.Step.{Steps};

use crate::overrun::{counted, marked};
use crate::{Acted, Port};
use course::{Reached, travel};
use frames::Frame;
use timetable::Timetable;

// A frame being sent, not counted, whose gate is closed in the octet at an instant from lo on, before hi and before its last octet is out.
// Not by `shut`: so it is the model's `shut_in` test by test, and proves by its definition.
#[tactic(auto, unfolding(rule::proofs::Walk::shut_in, frames::specs::Frame::decode_frame, rule::specs::Port::last_octet_at))]
fn shut_in(f: Frame, octet: u8, lo: u64, hi: u64) -> bool
    ensures { result ≡ shut_in (decode_frame f) octet lo hi }
{
    let is_open = gatelist::gate(octet, f.class);
    (f.present == 1) & (!(f.counted == 1) & ((lo < hi) & ((lo < f.last) & !is_open)))
}

// Whether a frame met a closed gate at an instant after the clock and up to the one that a travel reached, by the octet at the clock and the changes written since.
fn met(f: Frame, octet: u8, clock: u64, reached: Reached, instants: &[u64], octets: &[u8]) -> bool
    requires { Legible clock reached.at reached.written instants.now octets.now }
    ensures { MetBy f octet clock reached.at reached.written instants.now octets.now result }
{
    let mut from = clock;
    let mut shown = octet;
    // By index: the laws of reading back (`Back`, `Holds`) speak of places, of which the first alone are written.
    for i in 0..reached.written {
        let change = instants[i];
        if shut_in(f, shown, from.max(clock + 1), change) {
            return true;
        }
        if f.last <= change {
            return false;
        }
        from = change;
        shown = octets[i];
    }
    shut_in(f, shown, from.max(clock + 1), reached.at + 1)
}

// The same for a timetable; with no frame being sent nothing is looked at.
#[tactic(auto, using(crate::proofs::Reading::none_met))]
fn met_on(g: &Timetable, f: Frame, reached: Reached, instants: &[u64], octets: &[u8]) -> bool
    requires { Legible g.now.times.clock reached.at reached.written instants.now octets.now }
    ensures { MetOn (shown (timetable.decode g.now)) f g.now.times.clock reached.at reached.written instants.now octets.now result }
{
    if f.present != 1 {
        return false;
    }
    let clock = g.times.clock;
    met(f, g.shown_at(clock), clock, reached, instants, octets)
}

// The frame forgotten, if its end has come by t.
fn forgotten(f: Frame, t: u64) -> Frame
    ensures { result ≡ forgotten_frame t f }
{
    if (f.present == 1) & (f.end <= t) {
        return Frame::none();
    }
    f
}

impl Port {
    // Moves the clock to a goal and reports the changes. Refused: 14, 9, 10, 11.
    pub fn step(self, goal: u64, instants: &mut [u64], octets: &mut [u8]) -> Acted<usize>
        ensures { Steps self goal instants.old instants.new octets.old octets.new result }
    {
        let x = self.gates.times;
        let f = self.frame;
        let mut p = self;
        let sent = f.formed(x.clock);
        let c = travel(&p.gates, sent, Port::LARGEST_STEP, goal, instants, octets);
        match c {
            Err(reason) => Acted {
                answer: Err(reason),
                port: p,
            },
            Ok(reached) => {
                let Reached { written, at: end } = reached;
                let due = (x.waits == 1) & (x.change <= end);
                if !((f.present == 1) | due) {
                    p.gates.times.clock = end;
                    return Acted {
                        answer: Ok(written),
                        port: p,
                    };
                }
                let hit = met_on(&p.gates, f, reached, instants, octets);
                let overruns = counted(p.overruns, f, hit);
                let seen = marked(f, hit);
                let frame = forgotten(seen, end);
                let gates = p.gates.moved(end);
                p.overruns = overruns;
                p.frame = frame;
                p.gates = gates;
                Acted {
                    answer: Ok(written),
                    port: p,
                }
            }
        }
    }
}
