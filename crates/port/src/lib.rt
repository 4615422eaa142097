// One port of a switch with eight traffic classes: its record, and the calls on it. Each act takes the record by value and hands back the next one
// with its answer; a refused act hands back the record that it got. Any bit pattern of a record is taken: a malformed one is refused.
#![tactic(auto)]

mod acts;
mod looking;
mod overrun;
mod record;
mod stepping;
mod submitting;
mod transmitting;

use frames::Frame;
use gatelist::GateList;
use rule::Refusal;
use timetable::Timetable;

// The port: the frame being sent, the timetable of its gates (clock, mark, standing octet, what operates, what waits, ConfigChangeError), and the eight
// TransmissionOverrun counters.
#[repr(C)]
#[derive(Clone, Copy)]
pub struct Port {
    pub frame: Frame,
    pub gates: Timetable,
    pub overruns: [u64; 8],
}

impl Port {
    // The largest instant, in nanoseconds.
    pub const LARGEST_INSTANT: u64 = Timetable::LARGEST_INSTANT;
    // The longest step.
    pub const LARGEST_STEP: u64 = 1_000_000_000;
    // The entries of the longest list, SupportedListMax.
    pub const LARGEST_LIST: usize = GateList::MAX;
    // The longest cycle.
    pub const LARGEST_CYCLE: u64 = Timetable::LARGEST_CYCLE;
}

// What an act answers, which is a value of its own or refused for a reason, and the port after it.
#[derive(Clone, Copy)]
pub struct Acted<T> {
    pub answer: Result<T, Refusal>,
    pub port: Port,
}
