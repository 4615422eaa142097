// The numbers of a sheet: groups of seven bits, lowest group first, the top bit set on all octets but the last, shortest form only. A number is read at
// 8, 32 or 64 bits from any octets at any place, and written to the front of any buffer. A refused writing leaves the buffer as it was.
#![tactic(auto)]

ghost use Rattle.std.specs.Prelude.{◌≡◌, ◌++◌, ◌≤◌, length, drop};
ghost use Rattle.numbers.specs.Groups.{octets_of, read_up_to, read_number, reading_of, stands_for};
ghost use Rattle.numbers.specs.Writing.{write_number, writing_of};

use rule::Refusal;

mod width;

use width::Width;

// The number at a place, not above the largest. It looks at no more groups than the largest has.
#[tactic(auto, using(crate::proofs::Reading::read_cut, crate::proofs::Reading::read_narrow, crate::proofs::Reading::read_none, crate::proofs::Reading::read_within))]
fn read_up_to(s: &[u8], at: usize, largest: u64) -> Option<(u64, usize)>
    ensures { result ≡ read_up_to largest s.now at }
{
    let octet = *s.get(at)?;
    let next = at + 1;
    if octet < 128 {
        let value = u64::from(octet);
        return (value <= largest).then_some((value, next));
    }
    if largest < 128 {
        return None;
    }
    let (rest, end) = read_up_to(s, next, largest / 128)?;
    let value = 128 * rest + u64::from(octet - 128);
    ((rest != 0) & (value <= largest)).then_some((value, end))
}

// Reads a number at a place, and the place after it. Of none: it is cut short, overlong or too large.
#[tactic(auto, using(crate::proofs::Reading::read_within))]
pub fn read<T: Width>(s: &[u8], at: usize) -> Option<(T, usize)>
    ensures { reading_of (stands_for T.value result) ≡ reading_of (read_number T.width s.now at) }
{
    let (value, next) = read_up_to(s, at, T::LARGEST)?;
    Some((T::narrow(value), next))
}

// How many octets a number takes.
#[tactic(auto, using(crate::proofs::Writing::size_more, crate::proofs::Writing::size_last))]
fn size(n: u64) -> usize
    ensures { result ≡ length (octets_of n) }
{
    let mut rest = n;
    let mut k: usize = 1;
    // The rest is divided; what is counted goes with it.
    while 128 <= rest {
        rest /= 128;
        k += 1;
    }
    k
}

// A number's octets, at the front of a buffer that has room for them.
#[tactic(auto, using(crate::proofs::Writing::filling_start, crate::proofs::Writing::filling_room, crate::proofs::Writing::filling_last))]
fn put(n: u64, out: &mut [u8])
    requires { length (octets_of n) ≤ length out.old }
    ensures { out.new ≡ octets_of n ++ drop (length (octets_of n)) out.old }
{
    let mut rest = n;
    let mut i: usize = 0;
    // The rest is divided; the place goes with it.
    while 128 <= rest {
        out[i] = (128 + rest % 128) as u8;
        rest /= 128;
        i += 1;
    }
    out[i] = rest as u8;
}

// Writes a number's octets to the front of a buffer. Refused: 16, and the buffer stays as it was.
#[tactic(auto, unfolding(crate::specs::Writing::write_number))]
pub fn write(n: u64, out: &mut [u8]) -> Result<usize, Refusal>
    ensures { writing_of result out.new ≡ write_number n out.old }
{
    let k = size(n);
    if out.len() < k {
        return Err(Refusal::BufferShort);
    }
    put(n, out);
    Ok(k)
}
