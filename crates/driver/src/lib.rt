// The driver's call: its one port record is lent, and a transmit on it stores the frame there. A refused call, and one that finds nothing to send, leave
// every octet of the record as it is. Crate `driver_c` exports it to C: include/port.h has the record and what a caller must keep.
#![tactic(auto)]

ghost use Rattle.driver.specs.Lent.{Answers, Lends};

use frames::{Sending, decide};
use port::Port;
use rule::Refusal;

// What a lent transmit answers, in numbers: that of the refusal, or 0; and whether a frame was chosen (1) or not (0), with its class, start, last octet
// and earliest next start. What does not apply is 0. Numbers and marks, and no Result: it is the C interface's (include/port.h).
#[repr(C)]
#[derive(Clone, Copy, Debug, Default, PartialEq, Eq)]
pub struct Answer {
    pub number: u8,
    pub chosen: u8,
    pub class: u8,
    pub start: u64,
    pub last: u64,
    pub end: u64,
}

// The answer of a choice in numbers.
impl From<Result<Option<Sending>, Refusal>> for Answer {
    ghost from_gives = { Answers };

    fn from(choice: Result<Option<Sending>, Refusal>) -> Self {
        match choice {
            Ok(Some(sending)) => Answer {
                number: 0,
                chosen: 1,
                class: sending.class,
                start: sending.start,
                last: sending.last,
                end: sending.end,
            },
            Ok(None) => Answer::default(),
            Err(reason) => Answer {
                number: u8::from(reason),
                ..Answer::default()
            },
        }
    }
}

// Chooses a frame by the heads of the eight queues (0: empty) and the speed in Mbit/s, and stores it in the lent port, field by field, so that no octet
// between the fields is written. The lists are read where they lie. Refused: 14, 13, 17, 12.
pub fn kurfandaz_transmit(p: &mut Port, heads: &[u64; 8], speed: u64) -> Answer
    ensures { Lends heads.now speed p.old result p.new }
{
    let d = decide(&p.gates, p.frame, *heads, speed);
    let frame = d.frame;
    p.frame.present = frame.present;
    p.frame.class = frame.class;
    p.frame.counted = frame.counted;
    p.frame.start = frame.start;
    p.frame.last = frame.last;
    p.frame.end = frame.end;
    Answer::from(d.answer)
}
