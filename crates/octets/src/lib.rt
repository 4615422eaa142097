// A list's octets, read and written. Every function takes any octets, any stated length, any record, any buffer. A refused reading hands back no list; a
// refused writing leaves the buffer as it was.
#![tactic(auto)]

ghost use Rattle.octets.specs.Octets.{Reads, Writes};

use gatelist::GateList;
use rule::Refusal;

mod entry;

// What a reading declines with: the refusal, and the place of the octet that it concerns.
#[derive(Clone, Copy, Debug, PartialEq, Eq)]
pub struct ReadError {
    pub refusal: Refusal,
    pub place: usize,
}

// Reads a list of the stated length from its octets.
pub fn read(octets: &[u8], stated: u64) -> Result<GateList, ReadError>
    ensures { Reads octets.now stated result }
{
    let refusal = Refusal::ListLength;
    if stated < 1 || (GateList::MAX as u64) < stated {
        return Err(ReadError { refusal, place: 0 });
    }
    let len = stated as usize;
    let mut gates = [0u8; 128];
    let mut intervals = [0u32; 128];
    for i in 0..len {
        (gates[i], intervals[i]) = entry::read_entry(octets, 7 * i)?;
    }
    let place = 7 * len;
    if place < octets.len() {
        return Err(ReadError { refusal, place });
    }
    Ok(GateList {
        octets: gates,
        intervals,
        len,
    })
}

// Writes a list's octets to the front of a buffer, and answers how many. A refusal leaves the buffer as it was.
pub fn write(list: GateList, buffer: &mut [u8]) -> Result<usize, Refusal>
    ensures { Writes list buffer.old result buffer.new }
{
    let len = list.len;
    if len < 1 || GateList::MAX < len {
        return Err(Refusal::ListLength);
    }
    if list.entries().has_zero() {
        return Err(Refusal::ZeroInterval);
    }
    let count = 7 * len;
    if buffer.len() < count {
        return Err(Refusal::BufferShort);
    }
    // By index, here and in `read`: the buffer's parts and the two arrays go in step, and behind `chunks_exact_mut` or `zip` of `iter_mut` the check knows their lengths alone.
    for i in 0..len {
        entry::write_entry(&mut buffer[7 * i..], list.octets[i], list.intervals[i]);
    }
    Ok(count)
}
