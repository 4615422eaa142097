// One entry of a list's octets: seven octets at a place, read or written. Only this crate's reader and writer call these.
ghost use Rattle.std.specs.Prelude.{◌≡◌, ◌≤◌, length, drop};
ghost use Rattle.octets.specs.Parts.{entry_read, entry_into};

use crate::ReadError;
use rule::Refusal;

// The operation SetGateStates, and how many octets follow an entry's first two.
const SET_GATE_STATES: u8 = 0;

const LENGTH: u8 = 5;

// The octets from a place on; none from beyond their end.
fn from(octets: &[u8], place: usize) -> &[u8]
    ensures { result.now ≡ drop place octets.now }
{
    octets.get(place..).unwrap_or(&[])
}

// The gate octet and the interval of the entry whose first octet is at a place.
#[tactic(auto, using(crate::proofs::Reading::of_entry))]
pub fn read_entry(octets: &[u8], place: usize) -> Result<(u8, u32), ReadError>
    ensures { result ≡ entry_read octets.now place }
{
    let refused = |refusal| ReadError { refusal, place };
    let [operation, length, rest @ ..] = from(octets, place) else {
        return Err(refused(Refusal::CutShort));
    };
    if *operation != SET_GATE_STATES {
        return Err(refused(Refusal::Operation));
    }
    if *length != LENGTH {
        return Err(refused(Refusal::LengthOctet));
    }
    let [octet, a, b, c, d, ..] = rest else {
        return Err(refused(Refusal::CutShort));
    };
    let interval = u32::from_be_bytes([*a, *b, *c, *d]);
    if interval == 0 {
        return Err(refused(Refusal::ZeroInterval));
    }
    Ok((*octet, interval))
}

// An entry's seven octets, at the front of a part of the buffer.
pub fn write_entry(part: &mut [u8], octet: u8, interval: u32)
    requires { 7 ≤ length part.old }
    ensures { part.new ≡ entry_into (record { octet = octet; interval = interval }) part.old }
{
    let [a, b, c, d] = interval.to_be_bytes();
    part[..7].copy_from_slice(&[SET_GATE_STATES, LENGTH, octet, a, b, c, d]);
}
