// Octets of hexadecimal digits, two for each, in upper or lower case; and numbers of decimal digits. Not std's `from_str_radix`, which takes a sign.
ghost use Rattle.std.specs.Prelude.{◌≡◌, ◌≤◌, ◌<◌, ◌↔◌, length, IsNone, IfSome};
ghost use Rattle.text.specs.Scan.{hex_value};

// The value of a hexadecimal digit, in upper or lower case.
pub fn hex_value(octet: u8) -> Option<u8>
    ensures none { IsNone result ↔ (hex_value octet ≡ 16) }
    ensures value { IfSome result (λ v. (v ≡ hex_value octet) × (v < 16)) }
{
    let digit = char::from(octet).to_digit(16)?;
    Some(digit as u8)
}

// The octet of two digits.
fn octet_of(pair: [u8; 2]) -> Option<u8> {
    let [high, low] = pair;
    Some(16 * hex_value(high)? + hex_value(low)?)
}

// Puts the octets of digits to the front of a buffer, and answers how many there are: none if there is no digit, if one is bad or left over, or if they do not fit.
pub fn from_hex(s: &[u8], to: &mut [u8]) -> Option<usize>
    ensures { IfSome result (λ n. n ≤ length to.old) }
{
    let (pairs, odd) = s.as_chunks::<2>();
    if pairs.is_empty() || !odd.is_empty() || to.len() < pairs.len() {
        return None;
    }
    for (place, pair) in to.iter_mut().zip(pairs) {
        *place = octet_of(*pair)?;
    }
    Some(pairs.len())
}

// The number of decimal digits, of which there is at least one.
pub fn decimal_value(s: &[u8]) -> Option<u64> {
    if s.is_empty() {
        return None;
    }
    let mut value: u64 = 0;
    for octet in s {
        let digit = char::from(*octet).to_digit(10)?;
        value = value.checked_mul(10)?.checked_add(u64::from(digit))?;
    }
    Some(value)
}
