// Refusal 14, as far as it concerns a timetable: whether its record is well formed, for any bit pattern. And the record of a new one.
ghost use Rattle.std.specs.Prelude.{◌≡◌};
ghost use Rattle.rule.specs.Timetable.{new_timetable};
ghost use Rattle.timetable.specs.Record.{mark_ok, config_numbers, waits_in_time, idle_while_off};
ghost use Rattle.timetable.specs.Coding.{encode};
ghost use Rattle.timetable.specs.Checks.{Checked};

use crate::{Times, Timetable};
use gatelist::GateList;

// A mark is 0 or 1.
fn mark_ok(n: u8) -> bool
    ensures { result ≡ mark_ok n }
{
    n <= 1
}

// The numbers of a configuration: a cycle in range, or all zeros.
#[tactic(auto, unfolding(crate::specs::Record::config_numbers))]
fn config_numbers(there: bool, cycle: u64, extension: u64, start: u64) -> bool
    ensures { result ≡ config_numbers there cycle extension start }
{
    (there & ((1 <= cycle) & (cycle <= Timetable::LARGEST_CYCLE)))
        | (!there & ((cycle == 0) & ((extension == 0) & (start == 0))))
}

impl Times {
    // The instants of what waits.
    #[tactic(auto, unfolding(crate::specs::Record::waits_in_time))]
    fn waits_in_time(self) -> bool
        ensures { result ≡ waits_in_time self }
    {
        (self.since <= self.clock)
            & ((self.clock < self.change)
                & ((self.change <= Timetable::LARGEST_INSTANT + Timetable::LARGEST_CYCLE)
                    & (!(self.operates == 1) | (self.start <= self.since))))
    }

    // Nothing operates or waits while off.
    #[tactic(auto, unfolding(crate::specs::Record::idle_while_off))]
    fn idle_while_off(self) -> bool
        ensures { result ≡ idle_while_off self }
    {
        (self.on == 1) | (!(self.operates == 1) & !(self.waits == 1))
    }
}

impl Timetable {
    // Whether none of the conditions of 14 fails.
    pub fn formed(&self) -> bool
        ensures { Checked self.now result }
    {
        let x = self.times;
        let operates = x.operates == 1;
        let waits = x.waits == 1;
        let marks = mark_ok(x.on) & (mark_ok(x.operates) & mark_ok(x.waits));
        let idle = x.idle_while_off();
        let old = config_numbers(operates, x.cycle, x.extension, x.start);
        let listed = self.operating().formed(operates);
        let in_time = x.waits_in_time();
        let new = config_numbers(waits, x.newcycle, x.newextension, x.change);
        let newlisted = self.waiting().formed(waits);
        let operating = (!operates | (x.start <= x.clock)) & (old & listed);
        let waiting = ((waits & in_time) | (!waits & (x.since == 0))) & (new & newlisted);
        (x.clock <= Timetable::LARGEST_INSTANT) & (marks & (idle & (operating & waiting)))
    }

    // A timetable that is off, at an instant, with a standing octet and a zero counter. Each number by its name: a derived `default` promises an equation
    // per number, of which the proof would have to bring in thirteen one by one.
    pub fn new(start: u64, octet: u8) -> Self
        ensures { result ≡ encode (new_timetable start octet) }
    {
        let GateList {
            octets,
            intervals,
            ..
        } = GateList::empty();
        Timetable {
            times: Times {
                clock: start,
                on: 0,
                standing: octet,
                operates: 0,
                waits: 0,
                len: 0,
                cycle: 0,
                extension: 0,
                start: 0,
                newlen: 0,
                newcycle: 0,
                newextension: 0,
                change: 0,
                since: 0,
                errors: 0,
            },
            octets,
            intervals,
            newoctets: octets,
            newintervals: intervals,
        }
    }
}
