// The look ahead of a transmit: which classes' gates stay open to their frames' ends, by what a timetable shows. One walk serves all classes; it goes from regime
// to regime, over one cycle at most in each, and no instant is looked at by itself. Work is done for a class when its gate closes, which is once.
ghost use Rattle.std.specs.Prelude.{◌+◌, ◌≤◌, ◌<◌};
ghost use Rattle.rule.specs.Limits.{largest_instant, largest_cycle};
ghost use Rattle.rule.specs.Timetable.{shown};
ghost use Rattle.timetable.specs.Coding.{decode};
ghost use Rattle.timetable.specs.Stretch.{Walkable};
ghost use Rattle.frames.specs.Choosing.{Forms};
ghost use Rattle.frames.specs.Ahead.{closed_by, Narrows, Tells, Sweepable, Sweeps, SweepsList, Readable, Spans, SweepsSpan};

use crate::choosing::with_bit;
use gatelist::Entries;
use timetable::{Span, Stretch, Timetable};

// What a walk knows of the gates: the classes whose gates it has found open all the way, and those whose gates it has met closed, but not before the ends
// of their frames. The ends are lent beside it and are no field: a walk changes the one and reads the other, and its laws (`Tells`) speak of both.
#[derive(Clone, Copy, Debug, PartialEq, Eq)]
pub struct Gates {
    pub left: u8,
    pub ended: u8,
}

// Of an octet's classes those whose frames end by an instant.
fn ended_by(octet: u8, ends: &[u64; 8], at: u64) -> u8
    ensures { Forms (closed_by octet ends.now at) 8 result }
{
    let mut q: u8 = 0;
    // The place is the class.
    for (k, end) in ends.iter().enumerate() {
        let class = k as u8;
        let is_one = gatelist::gate(octet, class);
        q = with_bit(q, class, is_one & (*end <= at));
    }
    q
}

impl Gates {
    // From an instant on an octet is shown: the classes that it closes are left no more. Out of the loop that calls it: within, each entry of a transmit by value
    // takes a branch more (missed the speed of before).
    #[inline(never)]
    #[tactic(auto, using(crate::proofs::Closing::narrows_none, crate::proofs::Closing::narrows_some))]
    fn narrowed(self, octet: u8, at: u64, ends: &[u64; 8]) -> Gates
        ensures { Narrows octet at ends.now self result }
    {
        let left = self.left;
        let kept = left & octet;
        if kept == left {
            return self;
        }
        let ended = ended_by(left ^ kept, ends, at);
        Gates {
            left: kept,
            ended: self.ended | ended,
        }
    }

    // Walks what is left of a cycle, from the entry at a place, which begins at an instant, to before a limit; or until no class is left.
    fn swept<'a>(
        self,
        list: Entries<'a>,
        place: usize,
        from: u64,
        limit: u64,
        ends: &'a [u64; 8],
    ) -> Gates
        requires { Sweepable list place limit }
        ensures { Sweeps list.entry place from limit ends.now self result }
    {
        if self.left == 0 {
            return self;
        }
        let mut g = self;
        let mut at = from;
        // By number: the entries from a place on, of both arrays.
        for k in place..list.len {
            if limit <= at {
                return g;
            }
            let octet = list.octets[k];
            // Tested here too: in `narrowed` alone, an entry that closes no class takes 13 instructions and not 11 (missed the speed of before)
            if g.left & octet != g.left {
                g = g.narrowed(octet, at, ends);
                if g.left == 0 {
                    return g;
                }
            }
            at = at + gatelist::wide(list.intervals[k]);
        }
        g
    }

    // Walks a stretch of one cycle at most: what is left of the cycle that runs, and the beginning of the next one.
    #[tactic(auto, using(crate::proofs::Closing::stands))]
    fn swept_list<'a>(self, s: Stretch<'a>, ends: &'a [u64; 8]) -> Gates
        requires walkable { Walkable s.list.intervals.now s }
        requires edge_bound { s.edge ≤ s.from + s.period }
        ensures { SweepsList s.entry ends.now self result }
    {
        let list = s.list;
        let base = s.base;
        let from = s.from;
        let edge = s.edge;
        let next = base + s.period;
        let limit = next.min(edge);
        let p = list.entry_at(from - base);
        let place = p.number;
        let end = base + p.start + gatelist::wide(list.intervals[place]);
        let begun = self.narrowed(list.octets[place], from, ends);
        let g = begun.swept(list, place + 1, end, limit, ends);
        if edge <= next {
            return g;
        }
        g.swept(list, 0, next, edge, ends)
    }

    // Walks a span from t to before an edge: the standing octet, or a list over one cycle. What is open for a whole cycle stays so.
    fn swept_span<'a>(
        self,
        g: &'a Timetable,
        span: Span,
        t: u64,
        edge: u64,
        ends: &'a [u64; 8],
    ) -> Gates
        requires readable { Readable g.now }
        requires spans { Spans g.now.times t edge span }
        ensures { SweepsSpan g.now t edge ends.now self result }
    {
        match span.list {
            None => self.narrowed(g.times.standing, t, ends),
            Some(which) => {
                let period = span.period;
                let base = span.start;
                let stop = edge.min(t + period);
                // As in course, to another edge: a function of both would take five arguments.
                let s = Stretch {
                    list: g.list(which),
                    period,
                    base,
                    from: t,
                    edge: stop,
                };
                self.swept_list(s, ends)
            }
        }
    }
}

// What is known of the wanted classes' gates, from the clock to before last.
pub fn look_ahead<'a>(g: &'a Timetable, wanted: u8, ends: &'a [u64; 8], last: u64) -> Gates
    requires readable { Readable g.now }
    requires last_bound { last ≤ largest_instant + largest_cycle }
    ensures { Tells (shown (decode g.now)) g.now.times.clock last wanted ends.now result }
{
    let mut t = g.times.clock;
    let mut known = Gates {
        left: wanted,
        ended: 0,
    };
    while t < last {
        let span = g.times.regime(t);
        let edge = span.edge.min(last);
        known = known.swept_span(g, span, t, edge, ends);
        if known.left == 0 {
            return known;
        }
        t = edge;
    }
    known
}
