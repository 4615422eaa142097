// A stretch of time that can be walked with its changes reported, and its parts.
ghost use Rattle.std.specs.Prelude.{◌≡◌, ◌+◌, ◌<◌, ◌≤◌};
ghost use Rattle.course.specs.Stretch.{Reportable, until_edge, by_cycles, with_base};
ghost use Rattle.course.specs.Period.{BaseAt};

use timetable::Stretch;

// A stretch in which a list rules, with numbers that fit, that begins after instant 0.
#[derive(Clone, Copy)]
pub struct Leg<'a> {
    pub stretch: Stretch<'a>,
    ghost reportable: { Reportable stretch.list.intervals.now stretch },
}

// The start of the cycle that runs at t, where that is the cycle from base or the one after it.
fn base_at(base: u64, period: u64, t: u64) -> u64
    requires { base + period < 18446744073709551616 }
    ensures { BaseAt base period t result }
{
    if t < base + period {
        return base;
    }
    base + period
}

impl<'a> Leg<'a> {
    // What of it comes before an instant.
    pub fn until(&self, edge: u64) -> Leg<'a>
        requires { (self.now.stretch.from < edge) × (edge ≤ self.now.stretch.edge) }
        ensures { result.stretch ≡ until_edge self.now.stretch edge }
    {
        Leg {
            stretch: Stretch {
                edge,
                ..self.stretch
            },
        }
    }

    // From its second instant on.
    pub fn after_first(&self) -> Leg<'a>
        requires { self.now.stretch.from + 1 < self.now.stretch.edge }
        ensures base { BaseAt self.now.stretch.base self.now.stretch.period (self.now.stretch.from + 1) result.stretch.base }
        ensures rest { result.stretch ≡ with_base self.now.stretch result.stretch.base (self.now.stretch.from + 1) }
    {
        let s = self.stretch;
        let from = s.from + 1;
        let base = base_at(s.base, s.period, from);
        Leg {
            stretch: Stretch { base, from, ..s },
        }
    }

    // From an instant on that is whole periods later: as far into its cycle.
    pub fn later(&self, from: u64) -> Leg<'a>
        requires { (self.now.stretch.from ≤ from) × (from < self.now.stretch.edge) }
        ensures { result.stretch ≡ by_cycles self.now.stretch from }
    {
        let s = self.stretch;
        let base = s.base + (from - s.from);
        Leg {
            stretch: Stretch { base, from, ..s },
        }
    }
}
