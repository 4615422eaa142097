// The frame being sent, and the choice of the next one: the frame's record with its part of 14, the look ahead, the highest class that qualifies.
#![tactic(auto)]

mod ahead;
mod choosing;
mod deciding;
mod lengths;
mod sent;

pub use deciding::decide;
pub use lengths::duration;
use rule::Refusal;

// The frame being sent: the marks, 0 or 1, that it is there and that its overrun has been counted, its class, and the instants at which it starts, at which
// its last octet is out, and from which on the next frame may start. All zeros if absent. Marks, and no Option: the record is the C interface's.
#[repr(C)]
#[derive(Clone, Copy, Debug, Default, PartialEq, Eq)]
pub struct Frame {
    pub present: u8,
    pub class: u8,
    pub counted: u8,
    pub start: u64,
    pub last: u64,
    pub end: u64,
}

// A frame that begins to be sent: its class, and the instants of its start, of its last octet and of the earliest next start.
#[derive(Clone, Copy, Debug, PartialEq, Eq)]
pub struct Sending {
    pub class: u8,
    pub start: u64,
    pub last: u64,
    pub end: u64,
}

// What a transmit answers, the frame chosen or none, or refused for a reason; and the frame of the port after it.
#[derive(Clone, Copy, Debug, PartialEq, Eq)]
pub struct Decided {
    pub answer: Result<Option<Sending>, Refusal>,
    pub frame: Frame,
}

// How long a frame takes: so many ns to its last octet, and to the earliest next start.
#[derive(Clone, Copy, Debug, PartialEq, Eq)]
pub struct FrameTime {
    pub last: u64,
    pub next: u64,
}
