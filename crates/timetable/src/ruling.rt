// Which of the two lists rules at an instant, over which cycles, and until when. Only numbers and marks are looked at.
ghost use Rattle.std.specs.Prelude.{◌≡◌};
ghost use Rattle.timetable.specs.Regime.{plain_from, standing_to, list_to, span_at, span_waiting, span_bent};

use crate::Times;
use crate::starts::plain_start;

// One of a timetable's two lists: the operating configuration's or the waiting one's.
#[derive(Clone, Copy, Debug, PartialEq, Eq)]
pub enum Which {
    Operating,
    Waiting,
}

// A span over which one list is read over cycles of a period, or, with none, the standing octet is shown. The cycle that runs at the instant asked for has
// begun at start. It goes to before the edge.
#[derive(Clone, Copy, Debug, PartialEq, Eq)]
pub struct Span {
    pub list: Option<Which>,
    pub start: u64,
    pub period: u64,
    pub edge: u64,
}

// The standing octet, to before an edge.
fn standing_to(edge: u64) -> Span
    ensures { result ≡ standing_to edge }
{
    Span {
        list: None,
        start: 0,
        period: 0,
        edge,
    }
}

// A list read over plain cycles from a start, of which one runs at t, to before an edge.
fn plain_to(which: Which, start: u64, cycle: u64, t: u64, edge: u64) -> Span
    ensures { result ≡ list_to which (plain_from start cycle t) cycle edge }
{
    Span {
        list: Some(which),
        start: plain_start(start, cycle, t),
        period: cycle,
        edge,
    }
}

impl Times {
    // While a configuration waits and another operates, before the change: bent cycles.
    fn regime_bent(self, t: u64) -> Span
        ensures { result ≡ span_bent self t }
    {
        let last = self.last_start();
        if t < last {
            return plain_to(Which::Operating, self.start, self.cycle, t, last);
        }
        Span {
            list: Some(Which::Operating),
            start: last,
            period: self.change.saturating_sub(last),
            edge: self.change,
        }
    }

    // While a configuration waits.
    fn regime_waiting(self, t: u64) -> Span
        ensures { result ≡ span_waiting self t }
    {
        if self.change <= t {
            return plain_to(Which::Waiting, self.change, self.newcycle, t, u64::MAX);
        }
        if self.operates == 1 {
            return self.regime_bent(t);
        }
        standing_to(self.change)
    }

    // What rules at t, and an edge before which that stays so: the start of the last cycle, the change, or the largest number, which no instant is past.
    pub fn regime(self, t: u64) -> Span
        ensures { result ≡ span_at self t }
    {
        if self.on != 1 {
            return standing_to(u64::MAX);
        }
        if self.waits == 1 {
            return self.regime_waiting(t);
        }
        if self.operates != 1 {
            return standing_to(u64::MAX);
        }
        plain_to(Which::Operating, self.start, self.cycle, t, u64::MAX)
    }
}
