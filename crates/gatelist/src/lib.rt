// The gate control list of a port: its record of 128 places, the checks of a record, the entry and the octet at an offset of the cycle, one class's gate.
// Every function takes any record, any length, any offset. Nothing is refused.
#![tactic(auto)]

ghost use Rattle.std.specs.Prelude.{◌≡◌, ◌<◌, length, get_or};
ghost use Rattle.std.specs.List.{list_any, list_all};
ghost use Rattle.gatelist.specs.Coding.{lent};
ghost use Rattle.gatelist.specs.Sound.{every_below, place_ok};
ghost use Rattle.gatelist.specs.Places.{TestsNone, used_ok, Checked};
ghost use Rattle.gatelist.specs.Promises.{Widens, FindsZero, Empty, Puts, ShowsGate, FindsPlace, FindsOctet};

// A list: entry k has the gate octet octets[k] and the interval intervals[k] in nanoseconds, for k below len. The other places are unused. Two arrays with
// a length, since C lays the record out (include/port.h).
#[repr(C)]
#[derive(Clone, Copy)]
pub struct GateList {
    pub octets: [u8; 128],
    pub intervals: [u32; 128],
    pub len: usize,
}

// An entry of a list, counted from 0, and the stretch of offsets that it covers: from start to before end.
#[repr(C)]
#[derive(Clone, Copy, Debug, PartialEq, Eq)]
pub struct Place {
    pub number: usize,
    pub start: u64,
    pub end: u64,
}

// The entries of a list that stand in two lent arrays, as many as are in use.
#[derive(Clone, Copy)]
pub struct Entries<'a> {
    pub octets: &'a [u8; 128],
    pub intervals: &'a [u32; 128],
    pub len: usize,
}

// An interval as a time.
pub fn wide(x: u32) -> u64
    ensures { Widens x result }
{
    u64::from(x)
}

// Whether a place holds the default. This loop and the next leave no place out and never leave early, so that many places are compared at a time: with `all`
// they take four times the instructions, with a fold some more.
fn any_none<T: Copy + Default + PartialEq>(places: &[T]) -> bool
    ensures { TestsNone T.is_default (λ is. result ≡ list_any (λ x. T.eq x is) places.now) }
{
    let none = T::default();
    let mut found = false;
    for x in places {
        found = found | (*x == none);
    }
    found
}

// Whether all places do.
fn all_none<T: Copy + Default + PartialEq>(places: &[T]) -> bool
    ensures { TestsNone T.is_default (λ is. result ≡ list_all (λ x. T.eq x is) places.now) }
{
    let none = T::default();
    let mut clear = true;
    for x in places {
        clear = clear & (*x == none);
    }
    clear
}

// No used interval is 0, as far as the 128 places go.
fn intervals_ok(intervals: &[u32; 128], len: usize) -> bool
    ensures places { length intervals.now ≡ 128 }
    ensures used { result ≡ every_below (used_ok intervals.now len) 128 }
{
    !any_none(&intervals[..len.min(GateList::MAX)])
}

// Every used interval is not 0, and every unused place is 0 in both arrays. Of each array by itself, so no method of `Entries`.
fn places_ok<'a>(octets: &'a [u8; 128], intervals: &'a [u32; 128], len: usize) -> bool
    ensures octets { length octets.now ≡ 128 }
    ensures intervals { length intervals.now ≡ 128 }
    ensures places { result ≡ every_below (place_ok octets.now intervals.now len) 128 }
{
    let n = len.min(GateList::MAX);
    let used = intervals_ok(intervals, len);
    let later = all_none(&intervals[n..]);
    let shut = all_none(&octets[n..]);
    used & (later & shut)
}

impl GateList {
    // The places of a list record, SupportedListMax.
    pub const MAX: usize = 128;

    // The list of all zeros.
    #[tactic(auto, unfolding(crate::specs::Coding::empty_list))]
    pub fn empty() -> Self
        ensures { Empty result }
    {
        Self {
            octets: [0u8; 128],
            intervals: [0u32; 128],
            len: 0,
        }
    }

    // The entries of a list record, lent.
    pub fn entries(&self) -> Entries<'_>
        ensures { lent result ≡ self.now }
    {
        Entries {
            octets: &self.octets,
            intervals: &self.intervals,
            len: self.len,
        }
    }
}

// Writes the used places of one of a list's arrays into another array, and zero into its unused places.
pub fn put<T: Copy + Default>(from: &[T; 128], len: usize, into: &mut [T; 128])
    ensures { Puts T.is_default from.now len into.new }
{
    let none = [T::default(); 128];
    let n = len.min(GateList::MAX);
    *into = none;
    // Through an index the array that is lent anew did not prove.
    let (used, _) = into[..].split_at_mut(n);
    used.copy_from_slice(&from[..n]);
}

// One class's gate in an octet: class 7 is the most significant bit, 1 is open. There is no gate of a class above 7: closed.
pub fn gate(octet: u8, class: u8) -> bool
    ensures { ShowsGate octet class result }
{
    if 7 < class {
        return false;
    }
    (octet >> class) & 1 == 1
}

// The value at a place; a place beyond the 128 has the one given.
fn value_at<T: Copy>(places: &[T; 128], i: usize, none: T) -> T
    ensures value { result ≡ get_or places.now i none }
    ensures places { length places.now ≡ 128 }
{
    places.get(i).copied().unwrap_or(none)
}

impl<'a> Entries<'a> {
    // They are those of a well-formed list. If it is there: 1 to 128 entries, used intervals not 0, unused places 0. If it is absent: all zeros.
    pub fn formed(self, there: bool) -> bool
        ensures { Checked (lent self.entry) there result }
    {
        let len = self.len;
        let good = places_ok(self.octets, self.intervals, len);
        if there {
            return (1 <= len) & (len <= GateList::MAX) & good;
        }
        (len == 0) & good
    }

    // A used interval is 0. A place beyond the 128 counts as 0.
    pub fn has_zero(self) -> bool
        ensures { FindsZero self.entry.intervals.now self.entry.len result }
    {
        let good = intervals_ok(self.intervals, self.len);
        !((self.len <= GateList::MAX) & good)
    }

    // The entry whose stretch contains an offset: the first whose end lies past it, or else the last. A loop that breaks with the entry number, as document 01
    // names it.
    pub fn entry_at(self, offset: u64) -> Place
        ensures { FindsPlace self.entry.intervals.now self.entry.len offset result }
    {
        let intervals = self.intervals;
        let len = self.len;
        let mut rest = offset;
        let mut i: usize = 0;
        let number = loop {
            if len <= i + 1 {
                break i;
            }
            if i == GateList::MAX {
                break len - 1;
            }
            let interval = wide(intervals[i]);
            if rest < interval {
                break i;
            }
            rest = rest - interval;
            i = i + 1;
        };
        let start = offset - rest;
        let end = start + wide(value_at(intervals, number, 0));
        Place { number, start, end }
    }

    // The octet of that entry. A list of no entry has 0, and so has a place beyond the 128.
    pub fn octet_at(self, offset: u64) -> u8
        ensures { FindsOctet self.entry.octets.now self.entry.intervals.now self.entry.len offset result }
    {
        if self.len == 0 {
            return 0;
        }
        let place = self.entry_at(offset);
        value_at(self.octets, place.number, 0)
    }
}
