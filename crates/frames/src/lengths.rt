// How long a frame takes: the speeds and lengths that are offered, and the time to the last octet and to the earliest next start.
ghost use Rattle.std.specs.Prelude.{◌≡◌, true};
ghost use Rattle.rule.specs.Orders.{speed_offered, frame_offered};
ghost use Rattle.frames.specs.Lengths.{OctetTime, Lasts};

use crate::FrameTime;
use rule::Refusal;

// A speed in Mbit/s.
#[tactic(auto, using(crate::proofs::Decisions::speed_test))]
pub fn speed_offered(speed: u64) -> bool
    ensures { result ≡ speed_offered speed }
{
    (speed == 10) | ((speed == 100) | (speed == 1_000))
}

// A frame's length.
pub fn frame_offered(len: u64) -> bool
    ensures { result ≡ frame_offered len }
{
    (64 <= len) & (len <= 2_000)
}

// The time of an octet in ns, at a speed in Mbit/s that is offered.
#[tactic(auto, using(crate::proofs::Lasting::octet_times, crate::proofs::Lasting::speed_some))]
pub fn octet_time(speed: u64) -> u64
    requires { speed_offered speed ≡ true }
    ensures { OctetTime speed result }
{
    8_000 / speed
}

// How long a frame of a length takes at a speed in Mbit/s: the time of its octets and of 8 more to its last octet, and of 12 more to the earliest next start.
// Refused: 13, 12.
pub fn duration(len: u64, speed: u64) -> Result<FrameTime, Refusal>
    ensures { Lasts len speed result }
{
    if !speed_offered(speed) {
        return Err(Refusal::Speed);
    }
    if !frame_offered(len) {
        return Err(Refusal::HeadLength);
    }
    let octet_time = octet_time(speed);
    let last = (len + 8) * octet_time;
    let next = last + 12 * octet_time;
    Ok(FrameTime { last, next })
}
