// The timetable of a gate: its record, and what is asked of it. All numbers and marks of the record are one struct, `Times`; the lists' arrays stand beside
// it. Everything is answered for any bit pattern: what a malformed record shows is what its numbers say.
#![tactic(auto)]

mod cursor;
mod due;
mod record;
mod ruling;
mod shown;
mod starts;

ghost use Rattle.std.specs.Prelude.{◌≡◌};
ghost use Rattle.gatelist.specs.Coding.{lent};
ghost use Rattle.timetable.specs.Record.{old_list, new_list, list_in};

pub use cursor::{Cursor, Stretch};
use gatelist::Entries;
pub use ruling::{Span, Which};
pub use starts::change_instant;

// The numbers of a timetable: the clock; the marks, 0 or 1, that it is on (GateEnabled), that a configuration operates, that one waits; the standing octet
// (AdminGateStates); of what operates the length of its list, its cycle and its extension in nanoseconds and the instant at which its cycles start; of what
// waits the same, the change instant being its start, and since when it waits; the counter ConfigChangeError. All zeros where a part is absent. C lays the
// record out (include/port.h): so a mark is an octet, the two configurations are fields side by side, and a list is two arrays with a length.
#[repr(C)]
#[derive(Clone, Copy, Debug, PartialEq, Eq)]
pub struct Times {
    pub clock: u64,
    pub on: u8,
    pub standing: u8,
    pub operates: u8,
    pub waits: u8,
    pub len: usize,
    pub cycle: u64,
    pub extension: u64,
    pub start: u64,
    pub newlen: usize,
    pub newcycle: u64,
    pub newextension: u64,
    pub change: u64,
    pub since: u64,
    pub errors: u64,
}

// The record: the numbers, and the places of the list that operates and of the list that waits.
#[repr(C)]
#[derive(Clone, Copy)]
pub struct Timetable {
    pub times: Times,
    pub octets: [u8; 128],
    pub intervals: [u32; 128],
    pub newoctets: [u8; 128],
    pub newintervals: [u32; 128],
}

impl Timetable {
    // The largest instant and the longest cycle, in nanoseconds.
    pub const LARGEST_INSTANT: u64 = 9_000_000_000_000_000_000;

    pub const LARGEST_CYCLE: u64 = 1_000_000_000;

    // The list of what operates.
    pub fn operating(&self) -> Entries<'_>
        ensures { lent result ≡ old_list self.now }
    {
        Entries {
            octets: &self.octets,
            intervals: &self.intervals,
            len: self.times.len,
        }
    }

    // The list of what waits.
    pub fn waiting(&self) -> Entries<'_>
        ensures { lent result ≡ new_list self.now }
    {
        Entries {
            octets: &self.newoctets,
            intervals: &self.newintervals,
            len: self.times.newlen,
        }
    }

    // One of the two.
    pub fn list(&self, which: Which) -> Entries<'_>
        ensures { lent result ≡ list_in self.now which }
    {
        match which {
            Which::Operating => self.operating(),
            Which::Waiting => self.waiting(),
        }
    }
}
