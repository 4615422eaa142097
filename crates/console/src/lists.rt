// A list record in a line: K, then an octet and an interval for each of its first K places; the other places are 0.
use crate::answer::Line;
use gatelist::GateList;
use text::Scan;

// Takes a list record of a given length field.
pub fn take_list(s: &mut Scan, len: usize) -> Option<GateList> {
    let mut octets = [0u8; 128];
    let mut intervals = [0u32; 128];
    let used = octets.get_mut(..s.number()?)?;
    for (octet, interval) in used.iter_mut().zip(intervals.iter_mut()) {
        *octet = s.number()?;
        *interval = s.number()?;
    }
    Some(GateList {
        octets,
        intervals,
        len,
    })
}

// The octet and the interval of each of the first n places.
pub fn say_places(line: &mut Line, octets: &[u8; 128], intervals: &[u32; 128], n: usize) {
    for (octet, interval) in octets.iter().zip(intervals).take(n) {
        line.number(*octet);
        line.number(*interval);
    }
}

// K and its places, with the smallest K: behind it all places are 0.
pub fn say_list(line: &mut Line, octets: &[u8; 128], intervals: &[u32; 128]) {
    // Of each array by itself: in pairs, by `zip`, a place takes 23 instructions and not 4 (missed the speed of before)
    let octet = octets.iter().rposition(|o| *o != 0);
    let interval = intervals.iter().rposition(|i| *i != 0);
    let used = octet
        .map_or(0, |k| k + 1)
        .max(interval.map_or(0, |k| k + 1));
    line.count(used);
    say_places(line, octets, intervals, used);
}
