// A stretch of many cycles: the changes of one period are walked, and then written again, period after period.
ghost use Rattle.std.specs.Prelude.{◌≡◌, ◌+◌, ◌-◌, ◌*◌, ◌<◌, ◌≤◌, min, length};
ghost use Rattle.course.specs.Journey.{SameLoans};
ghost use Rattle.course.specs.Stretch.{WalkPromise};
ghost use Rattle.course.specs.Period.{CanRepeat, WrittenAgain, later, same, GoneByPeriods, AgainPromise};

use crate::leg::Leg;
use crate::stretch::uniform;
use crate::{Reached, Walk};

// As many periods as a length of time has and free places have room for, with count places each.
fn periods_that_fit(time: u64, period: u64, count: u64, free: u64) -> u64
    requires { 1 ≤ period }
    ensures { (result * period ≤ time) × (result * count ≤ free) }
{
    let k = time / period;
    if count == 0 {
        return k;
    }
    k.min(free / count)
}

// Writes the instants from place n to before end, each from the one that is count places before it, so much later.
fn repeat_later(count: usize, time: u64, n: usize, end: usize, instants: &mut [u64])
    requires { CanRepeat count n end (length instants.old) (length instants.old) }
    ensures { WrittenAgain (later time) count n end instants.old instants.new }
{
    // By index: each place is read from the buffer that it is written to, of which the check knows the length alone behind `iter_mut`.
    for i in n..end {
        let from = i - count;
        instants[i] = instants[from].wrapping_add(time);
    }
}

// Writes the places from n to before end, each from the one that is count places before it: the instant one period later, the octet as it is. What is
// written is written again as a whole, so it is twice as much each time, and no place is read and written in one loop.
fn repeat(count: usize, period: u64, n: usize, end: usize, instants: &mut [u64], octets: &mut [u8])
    requires { CanRepeat count n end (length instants.old) (length octets.old) }
    ensures { WrittenAgain (later period) count n end instants.old instants.new × WrittenAgain same count n end octets.old octets.new }
{
    let mut size = count;
    let mut time = period;
    let mut done = n;
    while done < end {
        let upto = done + size.min(end - done);
        repeat_later(size, time, done, upto, instants);
        octets.copy_within(done - size..upto - size, done);
        done = upto;
        size = size.wrapping_add(size);
        time = time.wrapping_add(time);
    }
}

impl Walk<'_> {
    // Goes on from t by whole periods, as many as end by last and have room: each repeats the changes written since there were so many.
    fn whole_periods(&mut self, t: u64, last: u64, period: u64, since: usize) -> u64
        requires { (t ≤ last) × ((last ≤ 9000000001000000000) × (1 ≤ period)) }
        ensures loans { SameLoans self.old self.new }
        ensures gone { GoneByPeriods t last period (self.old.written - since) self.old result self.new }
    {
        let n = self.written;
        let written = n as u64;
        let count = written.saturating_sub(since as u64);
        let room = (self.instants.len() as u64).min(self.octets.len() as u64);
        let k = periods_that_fit(last - t, period, count, room.saturating_sub(written));
        let end = (written + k * count) as usize;
        repeat(count as usize, period, n, end, self.instants, self.octets);
        self.written = end;
        t + k * period
    }

    // Walks a stretch, where the changes written since there were so many are those of the period before it: repeats them as often as it can, and walks
    // what is left.
    fn walk_repeating(&mut self, leg: &Leg<'_>, since: usize) -> Result<(), Reached>
        ensures loans { SameLoans self.old self.new }
        ensures walked { AgainPromise leg.now.stretch since self.old result self.new }
    {
        let s = leg.stretch;
        let edge = s.edge;
        let at = self.whole_periods(s.from - 1, edge - 1, s.period, since);
        let next = at + 1;
        if edge <= next {
            return Ok(());
        }
        let rest = leg.later(next);
        self.walk_list(&rest)
    }

    // Walks a stretch longer than a round: its first instant, the round of one period after that, and then by rounds.
    fn walk_long(&mut self, leg: &Leg<'_>) -> Result<(), Reached>
        requires { leg.now.stretch.from + 1 + leg.now.stretch.period < leg.now.stretch.edge }
        ensures loans { SameLoans self.old self.new }
        ensures walked { WalkPromise leg.now.stretch self.old result self.new }
    {
        let second = leg.stretch.from + 1;
        let next = second + leg.stretch.period;
        let one = leg.until(second);
        self.walk_list(&one)?;
        let since = self.written;
        let rounds = leg.after_first();
        let round = rounds.until(next);
        self.walk_list(&round)?;
        let rest = rounds.later(next);
        self.walk_repeating(&rest, since)
    }

    // Walks a stretch in which a list rules. One octet all through its cycles is passed at once, however many they are; of many cycles, the changes of one
    // are repeated.
    pub fn walk_ruled(&mut self, leg: &Leg<'_>) -> Result<(), Reached>
        ensures loans { SameLoans self.old self.new }
        ensures walked { WalkPromise leg.now.stretch self.old result self.new }
    {
        let s = leg.stretch;
        let octets = s.list.octets;
        let used = &octets[..s.list.len];
        if uniform(used) {
            return self.pass(used[0], s.from, s.edge);
        }
        if s.edge - s.from <= 2 * s.period {
            return self.walk_list(leg);
        }
        self.walk_long(leg)
    }
}
