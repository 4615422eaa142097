// The overrun test that follows every accepted act: a frame on the wire whose gate is closed in the octet shown is counted, once.
ghost use Rattle.std.specs.Prelude.{◌≡◌};
ghost use Rattle.rule.specs.Port as model;
ghost use Rattle.frames.specs.Frame.{decode_frame};
ghost use Rattle.port.specs.Coding.{decode, encode};
ghost use Rattle.port.specs.Checks.{Fine};
ghost use Rattle.port.specs.Updates.{marked_frame, counted_for};

use crate::Port;
use frames::Frame;

// The frame on the wire at an instant, not counted, has its gate closed in the octet.
#[tactic(auto, unfolding(frames::specs::Frame::decode_frame, rule::specs::Port::last_octet_at))]
fn shut(f: Frame, octet: u8, t: u64) -> bool
    ensures { result ≡ model.overran t octet (decode_frame f) }
{
    let is_open = gatelist::gate(octet, f.class);
    (f.present == 1) & (!(f.counted == 1) & ((t < f.last) & !is_open))
}

// The frame with its overrun counted, if it is there and b says so.
pub fn marked(f: Frame, b: bool) -> Frame
    ensures { result ≡ marked_frame b f }
{
    if b & (f.present == 1) {
        return Frame { counted: 1, ..f };
    }
    f
}

// The counters, that of the frame's class one more if it is there and b says so.
#[tactic(auto, unfolding(rule::specs::Timetable::raise))]
pub fn counted(overruns: [u64; 8], f: Frame, b: bool) -> [u64; 8]
    ensures { result ≡ counted_for b f overruns }
{
    let mut v = overruns;
    let i = f.class as usize;
    if (b & (f.present == 1)) & (f.class <= 7) {
        v[i] = v[i].wrapping_add(1);
    }
    v
}

// The port after the overrun test.
#[tactic(auto, using(crate::proofs::Overruns::tested_none, crate::proofs::Overruns::tested_is))]
pub fn tested(p: Port) -> Port
    requires { Fine p }
    ensures { result ≡ encode (model.tested (decode p)) }
{
    let f = p.frame;
    if f.present != 1 {
        return p;
    }
    let t = p.gates.times.clock;
    let octet = p.gates.shown_at(t);
    let met = shut(f, octet, t);
    let mut q = p;
    q.frame = marked(f, met);
    q.overruns = counted(p.overruns, f, met);
    q
}
