// Look: the octet shown at an instant not before the clock, if no further act comes. A refusal leaves nothing.
ghost use Rattle.port.specs.Acts.{Looks};

use crate::Port;
use rule::Refusal;

impl Port {
    // The octet at an instant, if no further act comes. Refused: 14, 9, 10.
    #[tactic(auto, unfolding(crate::specs::Acts::look_declines, rule::specs::Orders::look_order, crate::specs::Coding::decode, timetable::specs::Coding::decode))]
    pub fn look(self, t: u64) -> Result<u8, Refusal>
        ensures { Looks self t result }
    {
        if !self.well_formed() {
            return Err(Refusal::MalformedPort);
        }
        if Port::LARGEST_INSTANT < t {
            return Err(Refusal::AboveLargest);
        }
        if t < self.gates.times.clock {
            return Err(Refusal::BeforeClock);
        }
        Ok(self.gates.shown_at(t))
    }
}
