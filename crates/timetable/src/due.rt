// The record after an off, and with what falls due by an instant.
ghost use Rattle.std.specs.Prelude.{◌≡◌};
ghost use Rattle.timetable.specs.Updates.{cleared_table, moved_table};

use crate::{Times, Timetable};
use gatelist::GateList;

impl Timetable {
    // Off, with what operates and what waits discarded: a new timetable, but for the counter.
    pub fn cleared(self) -> Self
        ensures { result ≡ cleared_table self }
    {
        let x = self.times;
        let mut off = Timetable::new(x.clock, x.standing);
        off.times.errors = x.errors;
        off
    }

    // The clock at t, with the waiting configuration installed if its change instant has come by then.
    pub fn moved(mut self, t: u64) -> Self
        ensures { result ≡ moved_table t self }
    {
        let x = self.times;
        if (x.waits == 1) & (x.change <= t) {
            let Timetable {
                newoctets: octets,
                newintervals: intervals,
                ..
            } = self;
            let GateList {
                octets: newoctets,
                intervals: newintervals,
                ..
            } = GateList::empty();
            return Timetable {
                times: Times {
                    clock: t,
                    operates: 1,
                    waits: 0,
                    len: x.newlen,
                    cycle: x.newcycle,
                    extension: x.newextension,
                    start: x.change,
                    newlen: 0,
                    newcycle: 0,
                    newextension: 0,
                    change: 0,
                    since: 0,
                    ..x
                },
                octets,
                intervals,
                newoctets,
                newintervals,
            };
        }
        self.times.clock = t;
        self
    }
}
