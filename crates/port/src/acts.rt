// New, and the acts on, off and standing. A refused act hands back the port that it got; a refused new hands back the record of all zeros.
ghost use Rattle.std.specs.Prelude.{◌≡◌};
ghost use Rattle.rule.specs.declared.Refusal.TheVariants.{MalformedPort};
ghost use Rattle.rule.specs.Port as port;
ghost use Rattle.rule.specs.Acts as model;
ghost use Rattle.port.specs.Coding.{decode, encode};
ghost use Rattle.port.specs.Checks.{Fine};
ghost use Rattle.port.specs.Acts.{Performs, Makes};
ghost use Rattle.port.specs.Updates.{refused_with, done_with};

use crate::overrun::tested;
use crate::{Acted, Port};
use rule::Refusal;

// The answer to a malformed port.
fn malformed(p: Port) -> Acted<()>
    ensures { result ≡ refused_with MalformedPort p }
{
    Acted {
        answer: Err(Refusal::MalformedPort),
        port: p,
    }
}

// The answer to an act that made this port, after the overrun test.
pub fn done(p: Port) -> Acted<()>
    requires { Fine p }
    ensures { result ≡ done_with (encode (port.tested (decode p))) }
{
    let port = tested(p);
    Acted {
        answer: Ok(()),
        port,
    }
}

#[tactic(auto, unfolding(crate::specs::Acts::declines, crate::specs::Acts::after, crate::specs::Coding::decode, rule::specs::Acts::perform, rule::specs::Orders::new_order, timetable::specs::Coding::decode))]
impl Port {
    // A port at an instant, off, with a standing octet and zero counters. Refused: 9. No Result of a port alone: a refused one hands back zeros (`Makes`).
    pub fn new(start: u64, standing: u8) -> Acted<()>
        ensures { Makes start standing result }
    {
        if Port::LARGEST_INSTANT < start {
            let port = Port::fresh(0, 0);
            return Acted {
                answer: Err(Refusal::AboveLargest),
                port,
            };
        }
        let port = Port::fresh(start, standing);
        Acted {
            answer: Ok(()),
            port,
        }
    }

    // Sets the mark, also if it is set. Refused: 14.
    pub fn on(self) -> Acted<()>
        ensures { Performs (model.gates model.on) self result }
    {
        if !self.well_formed() {
            return malformed(self);
        }
        let mut p = self;
        p.gates.times.on = 1;
        done(p)
    }

    // Clears the mark, and discards the operating and the waiting configuration for good. Refused: 14.
    pub fn off(self) -> Acted<()>
        ensures { Performs (model.gates model.off) self result }
    {
        if !self.well_formed() {
            return malformed(self);
        }
        let mut p = self;
        p.gates = p.gates.cleared();
        done(p)
    }

    // Replaces the standing octet. Refused: 14.
    pub fn standing(self, octet: u8) -> Acted<()>
        ensures { Performs (model.gates (model.standing octet)) self result }
    {
        if !self.well_formed() {
            return malformed(self);
        }
        let mut p = self;
        p.gates.times.standing = octet;
        done(p)
    }
}
