// The frame's record: refusal 14 as far as it concerns the frame, the record of no frame, and a frame as an answer.
ghost use Rattle.std.specs.Prelude.{◌≡◌};
ghost use Rattle.frames.specs.Frame.{frame_formed, no_frame, decode_frame};
ghost use Rattle.frames.specs.Decision.{sending_of};

use crate::{Frame, Sending};

// The longest time from a frame's start to the next: 2,000 octets at 10 Mbit/s and the gap.
const LONGEST_SPAN: u64 = 1_616_000;

impl Frame {
    // Whether it is well formed at an instant.
    pub fn formed(self, clock: u64) -> bool
        ensures { result ≡ frame_formed self clock }
    {
        if self.present != 1 {
            return self == Self::none();
        }
        let span = self.end.saturating_sub(self.start);
        let ordered = (self.start < self.last) & ((self.last < self.end) & (span <= LONGEST_SPAN));
        let sent = (self.class <= 7) & ((self.start <= clock) & ((clock < self.end) & ordered));
        (self.counted <= 1) & sent
    }

    // No frame.
    pub fn none() -> Self
        ensures { result ≡ no_frame }
    {
        Self::default()
    }

    // The frame as an answer, if it is there.
    pub fn sending(self) -> Option<Sending>
        ensures { result ≡ sending_of (decode_frame self) }
    {
        if self.present == 1 {
            return Some(Sending {
                class: self.class,
                start: self.start,
                last: self.last,
                end: self.end,
            });
        }
        None
    }
}
