// Transmit: the frame of the highest class that qualifies begins now. A refusal hands back the port that it got.
ghost use Rattle.port.specs.Transmit.{Stores};

use crate::{Acted, Port};
use frames::{Sending, decide};

impl Port {
    // Chooses a frame, by the lengths at the heads of the eight queues (0: empty) and the speed in Mbit/s. It begins now. The overrun test that follows
    // the act finds the gate of a chosen class open, so nothing but the frame changes. Refused: 14, 13, 17, 12.
    pub fn transmit(self, heads: [u64; 8], speed: u64) -> Acted<Option<Sending>>
        ensures { Stores heads speed self result }
    {
        let mut port = self;
        let d = decide(&port.gates, port.frame, heads, speed);
        port.frame = d.frame;
        Acted {
            answer: d.answer,
            port,
        }
    }
}
