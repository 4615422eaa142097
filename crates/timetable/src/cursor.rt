// A cursor on the entries of a running cycle, for any numbers: an entry stops with its cycle at the latest, the last entry and every place beyond the list
// hold to the cycle's end, and the end of a cycle is a sum modulo 2^64.
ghost use Rattle.std.specs.Prelude.{◌≡◌};
ghost use Rattle.timetable.specs.Cursor.{entered, advanced, cursor_at};

use gatelist::{Entries, GateList};

// An entry of a running cycle: its place, the instant from which it is looked at, where it stops, and where the next cycle starts.
#[derive(Clone, Copy, Debug, PartialEq, Eq)]
pub struct Cursor {
    pub place: usize,
    pub from: u64,
    pub stop: u64,
    pub next: u64,
}

// A stretch in which one list rules: its cycles take a period, one of them has begun at base and runs at the instant from, and so it goes on to before
// the edge.
#[derive(Clone, Copy)]
pub struct Stretch<'a> {
    pub list: Entries<'a>,
    pub period: u64,
    pub base: u64,
    pub from: u64,
    pub edge: u64,
}

// The entry at a place, which begins at an instant. So many entries have another one after them, as far as the 128 places go.
fn entry_from(list: Entries<'_>, place: usize, from: u64, next: u64) -> Cursor
    ensures { result ≡ entered list.entry.intervals.now list.entry.len place from next }
{
    let last = list.len.saturating_sub(1).min(GateList::MAX) <= place;
    let stop = if last {
        next
    } else {
        from.saturating_add(gatelist::wide(list.intervals[place]))
            .min(next)
    };
    Cursor {
        place,
        from,
        stop,
        next,
    }
}

impl<'a> Stretch<'a> {
    // The entry that its first instant falls into, of the cycle that runs from base.
    pub fn cursor(self) -> Cursor
        ensures { result ≡ cursor_at self.entry.list.intervals.now self.entry.list.len self.entry.period self.entry.base self.entry.from }
    {
        let base = self.base;
        let from = self.from;
        let place = self.list.entry_at(from.saturating_sub(base));
        let next = base.wrapping_add(self.period);
        let last = self.list.len.saturating_sub(1) <= place.number;
        let stop = if last {
            next
        } else {
            base.saturating_add(place.end).min(next)
        };
        Cursor {
            place: place.number,
            from,
            stop,
            next,
        }
    }

    // The entry after a cursor's: in the same cycle, or the first of the next.
    pub fn advance(self, c: Cursor) -> Cursor
        ensures { result ≡ advanced self.entry.list.intervals.now self.entry.list.len self.entry.period c }
    {
        if c.next <= c.stop {
            return entry_from(self.list, 0, c.next, c.next.wrapping_add(self.period));
        }
        entry_from(self.list, c.place.wrapping_add(1), c.stop, c.next)
    }
}
