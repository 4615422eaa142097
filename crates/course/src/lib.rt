// The course of a timetable over time: from its clock towards a goal, with each change of what it shows written into two lent buffers. A refused travel
// writes nothing.
#![tactic(auto)]

mod leg;
mod periods;
mod spans;
mod stretch;

ghost use Rattle.course.specs.Travel.{Travels};
ghost use Rattle.course.specs.Journey.{OrderPromise};

use rule::Refusal;
use timetable::Timetable;

// What a travel comes to: so many changes written, and the instant that it reaches.
#[derive(Clone, Copy, Debug, PartialEq, Eq)]
pub struct Reached {
    pub written: usize,
    pub at: u64,
}

// A walk: the octet shown where it has come to, how many changes it has written up to there, and the buffers lent for them. One that cannot go on, as its
// next change finds no room, answers with an Err what the travel comes to.
// Each method promises SameLoans, that it holds the same loans: as a ghost field it did not prove where a walk is made, since its slices are lent anew there.
#[derive(Drop)]
struct Walk<'a> {
    octet: u8,
    written: usize,
    instants: &'a mut [u64],
    octets: &'a mut [u8],
}

// The order of Step: 14, 9, 10, 11.
fn order(malformed: bool, longest: u64, goal: u64, clock: u64) -> Result<(), Refusal>
    ensures { OrderPromise malformed longest goal clock result }
{
    let far = longest < goal.saturating_sub(clock);
    let above = Timetable::LARGEST_INSTANT < goal;
    let third = rule::first(far, Refusal::StepTooLong, Ok(()));
    let second = rule::first(goal < clock, Refusal::BeforeClock, third);
    let behind = rule::first(above, Refusal::AboveLargest, second);
    rule::first(malformed, Refusal::MalformedPort, behind)
}

// Walks a timetable from its clock to a goal, by at most the longest step. `fit` says that the rest of the record that it stands in is well formed. Each
// change is written, instant and octet, from place 0 on, and every other place stays as it was; where a change has no room, the walk ends 1 ns before it.
// Refused: 14, 9, 10, 11. The two buffers are lent apart, as a step lends them (`Steps`).
pub fn travel(
    g: &Timetable,
    fit: bool,
    longest: u64,
    goal: u64,
    instants: &mut [u64],
    octets: &mut [u8],
) -> Result<Reached, Refusal>
    ensures { Travels fit longest goal g.now instants.old instants.new octets.old octets.new result }
{
    let sound = fit & g.formed();
    let clock = g.times.clock;
    order(!sound, longest, goal, clock)?;
    let octet = g.shown_at(clock);
    let mut w = Walk {
        octet,
        written: 0,
        instants,
        octets,
    };
    match w.walk_to(g, goal) {
        Ok(()) => Ok(Reached {
            written: w.written,
            at: goal,
        }),
        Err(full) => Ok(full),
    }
}
