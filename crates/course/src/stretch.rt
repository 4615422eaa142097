// A stretch of time in which one list rules, walked entry by entry: each change is written into two lent buffers, instant and octet, behind those written
// before it. Where a change has no room the walk stops 1 ns before it.
ghost use Rattle.std.specs.Prelude.{◌≡◌, ◌<◌, ◌≤◌, true, length};
ghost use Rattle.course.specs.Journey.{SameLoans, PassPromise};
ghost use Rattle.course.specs.Stretch.{WalkPromise, Uniform};

use crate::leg::Leg;
use crate::{Reached, Walk};

impl Walk<'_> {
    // The octet is shown from an instant to before another: a change, if it differs from what was shown before.
    pub fn pass(&mut self, octet: u8, from: u64, until: u64) -> Result<(), Reached>
        requires { (1 ≤ from) × (from < until) }
        ensures loans { SameLoans self.old self.new }
        ensures passed { PassPromise octet from until self.old result self.new }
    {
        let n = self.written;
        if octet == self.octet {
            return Ok(());
        }
        let full = Reached {
            written: n,
            at: from - 1,
        };
        if self.instants.len() <= n {
            return Err(full);
        }
        if self.octets.len() <= n {
            return Err(full);
        }
        self.instants[n] = from;
        self.octets[n] = octet;
        self.octet = octet;
        self.written = n + 1;
        Ok(())
    }

    // Walks a stretch entry by entry.
    pub fn walk_list(&mut self, leg: &Leg<'_>) -> Result<(), Reached>
        ensures loans { SameLoans self.old self.new }
        ensures walked { WalkPromise leg.now.stretch self.old result self.new }
    {
        let s = leg.stretch;
        let octets = s.list.octets;
        let edge = s.edge;
        let mut c = s.cursor();
        loop {
            let until = c.stop.min(edge);
            let place = c.place;
            self.pass(octets[place], c.from, until)?;
            if edge <= c.stop {
                return Ok(());
            }
            c = s.advance(c);
        }
    }
}

// Whether the octets are all alike: a list's cycles need no walk if its used octets are. The fold never leaves early, so that many are compared at a time.
pub fn uniform(octets: &[u8]) -> bool
    requires { 1 ≤ length octets.now }
    ensures { result ≡ true → Uniform octets.now (length octets.now) }
{
    let first = octets[0];
    octets.iter().fold(true, |same, o| same & (*o == first))
}
