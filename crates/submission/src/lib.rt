// A submission to a timetable: whether it is taken, and the numbers of the record after it. Nothing here looks at 14: the caller says whether its record is well formed.
#![tactic(auto)]

ghost use Rattle.std.specs.Prelude.{◌≡◌};
ghost use Rattle.rule.specs.Cycle.{cycle_of, cycle_offered};
ghost use Rattle.rule.specs.Orders.{length_offered};
ghost use Rattle.submission.specs.Judgement.{Judges};
ghost use Rattle.submission.specs.Placement.{errors_for, placed_times};

use gatelist::{Entries, GateList};
use rule::{Refusal, first};
use timetable::{Times, Timetable};

// What is submitted beside the list: the cycle of numerator / denominator seconds, the extension in nanoseconds and the base time.
#[derive(Clone, Copy, Debug, PartialEq, Eq)]
pub struct Submission {
    pub numerator: u32,
    pub denominator: u32,
    pub extension: u32,
    pub base: u64,
}

impl Submission {
    // The cycle in nanoseconds, rounded down; 0 for a denominator of 0.
    fn cycle(self) -> u64
        ensures { result ≡ cycle_of self.numerator self.denominator }
    {
        let n = u64::from(self.numerator) * 1_000_000_000;
        let d = u64::from(self.denominator);
        n.checked_div(d).unwrap_or(0)
    }

    // The cycle is a whole number of nanoseconds, in range.
    fn cycle_offered(self) -> bool
        ensures { result ≡ cycle_offered self.numerator self.denominator }
    {
        let n = u64::from(self.numerator) * 1_000_000_000;
        let d = u64::from(self.denominator);
        let c = self.cycle();
        (c * d == n) & ((1 <= c) & (c <= Timetable::LARGEST_CYCLE))
    }
}

fn length_offered(len: usize) -> bool
    ensures { result ≡ length_offered len }
{
    (1 <= len) & (len <= GateList::MAX)
}

// The order of Submit, 14, 6, 7, 8, 9, 5, 4. The caller says whether 7 refuses it, `late`.
pub fn judged(
    x: Times,
    formed: bool,
    late: bool,
    list: Entries<'_>,
    s: Submission,
) -> Result<(), Refusal>
    ensures { Judges x formed late list.entry.intervals.now list.entry.len s result }
{
    let cycle = s.cycle_offered();
    let length = length_offered(list.len);
    let zero = list.has_zero();
    let off = x.on != 1;
    let above = Timetable::LARGEST_INSTANT < s.base;
    let last = first(zero, Refusal::ZeroInterval, Ok(()));
    let listed = first(!length, Refusal::ListLength, last);
    let based = first(above, Refusal::AboveLargest, listed);
    let cycled = first(!cycle, Refusal::CycleTime, based);
    let waiting = first(late, Refusal::ChangeWaits, cycled);
    let switched = first(off, Refusal::SwitchedOff, waiting);
    first(!formed, Refusal::MalformedPort, switched)
}

// ConfigChangeError, one more if the base time is past and a configuration operates.
fn errors_for(x: Times, base: u64) -> u64
    ensures { result ≡ errors_for base x }
{
    if (base < x.clock) & (x.operates == 1) {
        return x.errors.wrapping_add(1);
    }
    x.errors
}

// The numbers of a timetable after a submission that is taken, of a list of a length: it operates from its change instant, or waits for it in the place of
// what waits. The list's places belong to what waits if that is marked, else to what operates.
pub fn placed(x: Times, len: usize, s: Submission) -> Times
    ensures { result ≡ placed_times len s x }
{
    let clock = x.clock;
    let cycle = s.cycle();
    let extension = u64::from(s.extension);
    let start = timetable::change_instant(clock, s.base, cycle);
    let errors = errors_for(x, s.base);
    if start <= clock {
        return Times {
            operates: 1,
            waits: 0,
            len,
            cycle,
            extension,
            start,
            newlen: 0,
            newcycle: 0,
            newextension: 0,
            change: 0,
            since: 0,
            errors,
            ..x
        };
    }
    Times {
        waits: 1,
        newlen: len,
        newcycle: cycle,
        newextension: extension,
        change: start,
        since: clock,
        errors,
        ..x
    }
}
