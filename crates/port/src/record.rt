// Refusal 14: whether a record is well formed, for any bit pattern of its fields; and the record of a new port.
ghost use Rattle.std.specs.Prelude.{◌≡◌};
ghost use Rattle.rule.specs.Port.{new_port};
ghost use Rattle.port.specs.Coding.{encode};
ghost use Rattle.port.specs.Checks.{Checked};

use crate::Port;
use frames::Frame;
use timetable::Timetable;

impl Port {
    // Whether none of the conditions of 14 fails.
    pub(crate) fn well_formed(&self) -> bool
        ensures { Checked self.now result }
    {
        let timed = self.gates.formed();
        let sent = self.frame.formed(self.gates.times.clock);
        timed & sent
    }

    // A port that is off, at an instant, with a standing octet and zero counters.
    #[tactic(auto, unfolding(crate::specs::Coding::encode, rule::specs::Port::new_port))]
    pub(crate) fn fresh(start: u64, octet: u8) -> Self
        ensures { result ≡ encode (new_port start octet) }
    {
        Port {
            frame: Frame::none(),
            gates: Timetable::new(start, octet),
            overruns: [0u64; 8],
        }
    }
}
