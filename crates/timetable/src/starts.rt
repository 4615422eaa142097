// The starts of a configuration's cycles: the formula that every function of cycles goes by, in this file alone.
ghost use Rattle.std.specs.Prelude.{◌≡◌, ◌+◌, ◌-◌, ◌*◌, ◌/◌, ◌%◌, min, List};
ghost use Rattle.rule.specs.Entries.{Entry};
ghost use Rattle.rule.specs.Cycle.{start_no, last_no};
ghost use Rattle.timetable.specs.Coding.{old_config};
ghost use Rattle.timetable.specs.Checks.{change_by, begun_by};

use crate::Times;

// The start of the plain cycle that runs at t; before the first start, or with no cycle, that start.
pub fn plain_start(start: u64, cycle: u64, t: u64) -> u64
    ensures { result ≡ start + (t - start) / cycle * cycle }
{
    if cycle == 0 {
        return start;
    }
    if t <= start {
        return start;
    }
    start + (t - start) / cycle * cycle
}

impl Times {
    // The start of the last cycle of what operates: the first start later than `since` that comes, with a cycle and the extension, to the change or past it; or
    // the change itself, if that comes first.
    pub fn last_start(self) -> u64
        ensures { (l : List Entry) → result ≡ min (start_no (old_config self l) (last_no (old_config self l) self.since self.change)) self.change }
    {
        let start = self.start;
        let cycle = self.cycle;
        let change = self.change;
        let before = change.saturating_sub(self.extension);
        let running = plain_start(start, cycle, self.since);
        let covers = plain_start(start, cycle, before.saturating_sub(1));
        if running < covers {
            return covers.min(change);
        }
        running.saturating_add(cycle).min(change)
    }

    // Whether the last old cycle has begun under what waits: it starts before the change, and has started by the clock.
    pub fn last_begun(self) -> bool
        ensures { result ≡ begun_by self }
    {
        let both = (self.operates == 1) & (self.waits == 1);
        let change = self.change;
        let clock = self.clock;
        let last = self.last_start();
        both & ((last < change) & (last <= clock))
    }
}

// The change instant of a submission: the first of base, base + c, base + 2c and so on that is now or later, modulo 2^64.
pub fn change_instant(now: u64, base: u64, c: u64) -> u64
    ensures { result ≡ change_by now base c % 18446744073709551616 }
{
    if now <= base {
        return base;
    }
    let running = plain_start(base, c, now - 1);
    running.wrapping_add(c)
}
