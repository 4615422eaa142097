// Text for people, in ASCII: octets and numbers put into a lent buffer at a place, and numbers taken from a line. Putting answers the next place; what does
// not fit is left out, and the buffer and the place stay as they were. They are two parameters and no struct: a page's promise (`Fills`, of lister) names the buffer, and `Puts` both.
#![tactic(auto)]

ghost use Rattle.std.specs.Prelude.{◌≡◌, [], ◌∷◌, ◌<◌};
ghost use Rattle.text.specs.Decimal.{decimal_of};
ghost use Rattle.text.specs.Put.{Puts, PutsBehind, glyph_of, hex_of};

mod digits;
mod scan;
mod stream;

pub use digits::{from_hex, hex_value};
pub use scan::{Scan, find, same};
pub use stream::{take, take_all};

// Puts octets at a place.
pub fn put(out: &mut [u8], at: usize, s: &[u8]) -> usize
    ensures { Puts s.now at out.old result out.new }
{
    if out.len() < at || out.len() - at < s.len() {
        return at;
    }
    let end = at + s.len();
    out[at..end].copy_from_slice(s);
    end
}

// A digit of 0 to 15 in upper case. By hand, as is `hex`: its promise says the two digits one by one (`hex_of`).
fn glyph(d: u8) -> u8
    requires { d < 16 }
    ensures { result ≡ glyph_of d }
{
    if d < 10 { b'0' + d } else { b'A' + (d - 10) }
}

// Puts an octet as two upper-case hexadecimal digits.
pub fn hex(out: &mut [u8], at: usize, octet: u8) -> usize
    ensures { Puts (hex_of octet) at out.old result out.new }
{
    let digits = [glyph(octet / 16), glyph(octet % 16)];
    put(out, at, &digits)
}

// Puts a number in decimal.
pub fn decimal(out: &mut [u8], at: usize, n: u64) -> usize
    ensures { Puts (decimal_of n) at out.old result out.new }
{
    let mut digits = [0u8; 20];
    let k = io::decimal(n, &mut digits);
    put(out, at, &digits[..k])
}

// Puts a space and a number in decimal.
pub fn spaced(out: &mut [u8], at: usize, n: u64) -> usize
    ensures { PutsBehind (32 ∷ []) (decimal_of n) at out.old result out.new }
{
    let at = put(out, at, b" ");
    decimal(out, at, n)
}

// Writes the first n octets of a buffer to standard output, and answers whether all were taken: not if there are fewer, or if a write fails. A bool,
// as of `io::write_all`: no reason comes with it. Of a buffer as `put` leaves it: the place that it answered is how many there are.
pub fn show(out: &[u8], n: usize) -> bool {
    out.get(..n).is_some_and(|s| io::write_all(1, s))
}
