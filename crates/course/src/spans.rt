// The walk from the clock to a goal, span by span of what rules.
ghost use Rattle.std.specs.Prelude.{◌≡◌, ◌≤◌};
ghost use Rattle.rule.specs.Limits.{largest_instant};
ghost use Rattle.timetable.specs.Checks.{Fine};
ghost use Rattle.course.specs.Journey.{SameLoans, WalkOutcome, journey_of, Ahead, SpanPromise, AtClock};

use crate::leg::Leg;
use crate::{Reached, Walk};
use timetable::{Span, Stretch, Timetable};

impl Walk<'_> {
    // Walks a span of a timetable from t on: the standing octet, or one of its two lists.
    fn walk_span(&mut self, g: &Timetable, span: Span, t: u64) -> Result<(), Reached>
        requires fine { Fine g.now }
        requires ahead { Ahead g.now.times t span }
        ensures loans { SameLoans self.old self.new }
        ensures walked { SpanPromise g.now span t self.old result self.new }
    {
        match span.list {
            None => self.pass(g.times.standing, t, span.edge),
            Some(which) => {
                // Five fields by name, as frames has them once: a function of both would take five arguments.
                let leg = Leg {
                    stretch: Stretch {
                        list: g.list(which),
                        period: span.period,
                        base: span.start,
                        from: t,
                        edge: span.edge,
                    },
                };
                self.walk_ruled(&leg)
            }
        }
    }

    // Walks from the clock to a goal, and writes each change; or to 1 ns before the first change that has no room.
    pub fn walk_to(&mut self, g: &Timetable, goal: u64) -> Result<(), Reached>
        requires fine { Fine g.now }
        requires begins { AtClock g.now self.old }
        requires goal { (g.now.times.clock ≤ goal) × (goal ≤ largest_instant) }
        ensures loans { SameLoans self.old self.new }
        ensures walked { WalkOutcome (journey_of g.now goal self.old.instants.now self.old.octets.now) goal result self.new }
    {
        let mut t = g.times.clock + 1;
        while t <= goal {
            let rules = g.times.regime(t);
            let edge = rules.edge.min(goal + 1);
            let span = Span { edge, ..rules };
            self.walk_span(g, span, t)?;
            t = edge;
        }
        Ok(())
    }
}
