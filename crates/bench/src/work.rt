// The work of the cases, so many times each, and the sums that show that it was done: peer/README.md has them in a table.
use gatelist::GateList;
use port::Port;
use rule::Refusal;
use submission::Submission;

// A cycle in seconds from a base time on, with no extension.
pub fn cycle_of(numerator: u32, denominator: u32, base: u64) -> Submission {
    Submission {
        numerator,
        denominator,
        extension: 0,
        base,
    }
}

// A port that is new at 5,000 with the standing octet FF, on, with a list that operates from 5,000.
pub fn set_up(list: GateList, numerator: u32, denominator: u32) -> Port {
    let on = Port::new(5000, 0xff).port.on().port;
    on.submit(list, cycle_of(numerator, denominator, 5000)).port
}

// What a call answers as a number: its value, or that of its refusal.
fn number_of<T: Into<u64>>(answer: Result<T, Refusal>) -> u64 {
    match answer {
        Ok(value) => value.into(),
        Err(refusal) => u64::from(u8::from(refusal)),
    }
}

// Looks at instants all over a second.
pub fn looks(p: Port, times: u64) -> u64 {
    let mut sum: u64 = 0;
    let mut t: u64 = 0;
    for _ in 0..times {
        let l = p.look(t.wrapping_add(5000));
        sum = sum.wrapping_add(number_of(l));
        t = t.wrapping_add(7919) % 1_000_000_000;
    }
    sum
}

// The check for 14 alone: looks that are refused for their instant, which comes next in the order.
pub fn checks(p: Port, times: u64) -> u64 {
    let mut sum: u64 = 0;
    for i in 0..times {
        let l = p.look(i.wrapping_add(9_000_000_000_000_000_001));
        sum = sum.wrapping_add(number_of(l));
    }
    sum
}

// The last of n changes written, its instant and octet in one number, with their count.
fn last_of(n: usize, instants: &[u64], octets: &[u8]) -> Option<u64> {
    let last = n.checked_sub(1)?;
    let k = (n as u64).wrapping_add(u64::from(*octets.get(last)?));
    Some(k.wrapping_add(*instants.get(last)?))
}

fn tally(a: Result<usize, Refusal>, instants: &[u64], octets: &[u8]) -> u64 {
    number_of(a.map(|n| last_of(n, instants, octets).unwrap_or(0)))
}

// Steps of one length, one after the other.
pub fn steps(p: Port, span: u64, times: u64) -> u64 {
    let mut instants = [0u64; 1024];
    let mut octets = [0u8; 1024];
    let mut q = p;
    let mut sum: u64 = 0;
    for _ in 0..times {
        let goal = q.gates.times.clock.wrapping_add(span);
        let s = q.step(goal, &mut instants, &mut octets);
        q = s.port;
        sum = sum.wrapping_add(tally(s.answer, &instants, &octets));
        sum = sum.wrapping_add(q.gates.times.clock);
    }
    sum
}

// Transmits at one clock: the frame is taken away after each, without a call.
pub fn transmits(p: Port, head: u64, speed: u64, times: u64) -> u64 {
    let heads = [head; 8];
    let none = p.frame;
    let mut q = p;
    let mut sum: u64 = 0;
    for _ in 0..times {
        let t = q.transmit(heads, speed);
        q = t.port;
        let f = q.frame;
        sum = sum.wrapping_add(u64::from(f.class));
        sum = sum.wrapping_add(f.last);
        sum = sum.wrapping_add(f.end);
        q.frame = none;
    }
    sum
}

// The list is submitted again, for now.
pub fn submits(p: Port, list: GateList, times: u64) -> u64 {
    let mut q = p;
    let mut sum: u64 = 0;
    for i in 0..times {
        let a = q.submit(list, cycle_of(128, 1_000_000, 5000));
        q = a.port;
        sum = sum.wrapping_add(octet_at(&q.gates.octets, i));
        sum = sum.wrapping_add(q.gates.times.start);
    }
    sum
}

// The octet at a place, counted round and round.
fn octet_at(octets: &[u8; 128], i: u64) -> u64 {
    let k = (i % 128) as usize;
    u64::from(octets[k])
}

// Writes the list's 896 octets.
pub fn writes(list: GateList, times: u64) -> u64 {
    let mut buffer = [0u8; 896];
    let mut sum: u64 = 0;
    for i in 0..times {
        let w = octets::write(list, &mut buffer);
        let at = 7 * (i % 128) + 2;
        sum = sum.wrapping_add(u64::from(buffer[at as usize]));
        sum = sum.wrapping_add(number_of(w.map(|n| n as u64)));
    }
    sum
}

// Reads the list from its 896 octets.
pub fn reads(list: GateList, times: u64) -> u64 {
    let mut buffer = [0u8; 896];
    let _ = octets::write(list, &mut buffer);
    let mut sum: u64 = 0;
    for i in 0..times {
        if let Ok(l) = octets::read(&buffer, 128) {
            sum = sum.wrapping_add(octet_at(&l.octets, i));
            sum = sum.wrapping_add(u64::from(l.intervals[127]));
        }
    }
    sum
}
