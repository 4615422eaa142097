// The lists of the cases: 128 places with equal intervals.
use gatelist::GateList;

// The octets 80, 81 and so on to FF: class 7 is always open, and neighbours differ, also over the wrap.
pub fn counting() -> [u8; 128] {
    let mut octets = [0u8; 128];
    for (octet, k) in octets.iter_mut().zip(0x80..=0xff) {
        *octet = k;
    }
    octets
}

// FF for 120 entries; then the gates of class 0, class 1 and so on close one by one, but for those of the octet `kept`.
pub fn closing(kept: u8) -> [u8; 128] {
    let mut octets = [0xffu8; 128];
    octets[120] = 0xfe | kept;
    octets[121] = 0xfc | kept;
    octets[122] = 0xf8 | kept;
    octets[123] = 0xf0 | kept;
    octets[124] = 0xe0 | kept;
    octets[125] = 0xc0 | kept;
    octets[126] = 0x80 | kept;
    octets[127] = kept;
    octets
}

// An octet with class 6 open, and class 7 if both are to be.
fn paired(octet: u8, both: bool) -> u8 {
    if both {
        octet & 0x3f | 0xc0
    } else {
        octet & 0x3f | 0x40
    }
}

// The octets C0, C1 and so on to FF, twice: classes 7 and 6 are always open. From an entry on class 7 is closed.
pub fn pair(until: usize) -> [u8; 128] {
    let mut octets = counting();
    for (i, octet) in octets.iter_mut().enumerate() {
        *octet = paired(*octet, i < until);
    }
    octets
}

// The octets 80 and 01, over and over.
pub fn alternating() -> [u8; 128] {
    let mut octets = [0x80u8; 128];
    octets[1] = 0x01;
    octets
}

// So many entries of one interval.
pub fn list_of(octets: [u8; 128], interval: u32, len: usize) -> GateList {
    GateList {
        octets,
        intervals: [interval; 128],
        len,
    }
}
