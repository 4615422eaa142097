// The calls on a port, and the line that one stands in. A call takes the tokens behind its word; it is none, and changes nothing, unless every token fits its place and the
// line is at its end. It is handed what it needs of three: the tokens, the port, the line of the answer.
ghost use Rattle.std.specs.Prelude.{◌≤◌};

use crate::answer::Line;
use crate::coded::{call_read, call_write};
use crate::lists::take_list;
use crate::record::{say_port, take_numbers, take_port};
use frames::{FrameTime, Sending};
use port::{Acted, Port};
use rule::Refusal;
use submission::Submission;
use text::Scan;

// What a line with a call's word answers; none where it is no call.
pub fn call(s: &[u8], port: &mut Port, line: &mut Line) -> Option<()> {
    let mut s = Scan::new(s);
    match s.token()? {
        b"new" => call_new(s, port, line),
        b"on" => call_on(s, port, line),
        b"off" => call_off(s, port, line),
        b"standing" => call_standing(s, port, line),
        b"submit" => call_submit(s, port, true, line),
        b"replace" => call_submit(s, port, false, line),
        b"transmit" => call_transmit(s, port, line),
        b"step" => call_step(s, port, line),
        b"look" => call_look(s, port, line),
        b"load" => call_load(s, port, line),
        b"show" => call_show(s, port, line),
        b"read" => call_read(s, line),
        b"write" => call_write(s, line),
        b"duration" => call_duration(s, line),
        _ => None,
    }
}

// An act's answer, and the port that it leaves.
fn acted(a: Acted<()>, port: &mut Port, line: &mut Line) -> Option<()> {
    *port = a.port;
    line.answer(a.answer);
    Some(())
}

// new START STANDING
fn call_new(mut s: Scan, port: &mut Port, line: &mut Line) -> Option<()> {
    let start = s.number()?;
    let standing = s.number()?;
    s.end()?;
    let made = Port::new(start, standing);
    if made.answer.is_ok() {
        *port = made.port;
    }
    line.answer(made.answer);
    Some(())
}

// on
fn call_on(s: Scan, port: &mut Port, line: &mut Line) -> Option<()> {
    s.end()?;
    acted(port.on(), port, line)
}

// off
fn call_off(s: Scan, port: &mut Port, line: &mut Line) -> Option<()> {
    s.end()?;
    acted(port.off(), port, line)
}

// standing OCTET
fn call_standing(mut s: Scan, port: &mut Port, line: &mut Line) -> Option<()> {
    let octet = s.number()?;
    s.end()?;
    acted(port.standing(octet), port, line)
}

// submit LEN NUM DEN EXT BASE K o1 i1 .. oK iK, the strict one; replace with the same tokens, the one that takes the place of what waits
fn call_submit(mut s: Scan, port: &mut Port, strict: bool, line: &mut Line) -> Option<()> {
    let len = s.number()?;
    let numerator = s.number()?;
    let denominator = s.number()?;
    let extension = s.number()?;
    let base = s.number()?;
    let list = take_list(&mut s, len)?;
    s.end()?;
    let submission = Submission {
        numerator,
        denominator,
        extension,
        base,
    };
    let done = if strict {
        port.submit_strict(list, submission)
    } else {
        port.submit(list, submission)
    };
    acted(done, port, line)
}

fn say_choice(line: &mut Line, a: Result<Option<Sending>, Refusal>) {
    match a {
        Ok(Some(frame)) => {
            line.word(b"frame");
            line.number(frame.class);
            line.numbers(&[frame.start, frame.last, frame.end]);
        }
        Ok(None) => line.word(b"none"),
        Err(r) => line.refused(r),
    }
}

// transmit h0 .. h7 SPEED
fn call_transmit(mut s: Scan, port: &mut Port, line: &mut Line) -> Option<()> {
    let heads = take_numbers(&mut s)?;
    let speed = s.number()?;
    s.end()?;
    let sent = port.transmit(heads, speed);
    *port = sent.port;
    say_choice(line, sent.answer);
    Some(())
}

// A step with so many instants and octets. A function of its own, since one pays for its buffers when it is entered: a line that is no call enters none.
#[inline(never)]
fn stepped(goal: u64, mi: usize, mo: usize, port: &mut Port, line: &mut Line)
    requires { (mi ≤ 4096) × (mo ≤ 4096) }
{
    let mut instants = [7_777_777u64; 4096];
    let mut octets = [165u8; 4096];
    let instants = &mut instants[..mi];
    let octets = &mut octets[..mo];
    let stepped = port.step(goal, instants, octets);
    *port = stepped.port;
    line.written(stepped.answer);
    line.numbers(instants);
    line.numbers(octets);
}

// step GOAL MI MO, with MI instants and MO octets, at most 4,096 each
fn call_step(mut s: Scan, port: &mut Port, line: &mut Line) -> Option<()> {
    let goal = s.number()?;
    let mi = s.number_up_to(4096)? as usize;
    let mo = s.number_up_to(4096)? as usize;
    s.end()?;
    stepped(goal, mi, mo, port, line);
    Some(())
}

// look T
fn call_look(mut s: Scan, port: &Port, line: &mut Line) -> Option<()> {
    let t = s.number()?;
    s.end()?;
    match port.look(t) {
        Ok(octet) => {
            line.word(b"octet");
            line.number(octet);
        }
        Err(r) => line.refused(r),
    }
    Some(())
}

// load RECORD
fn call_load(mut s: Scan, port: &mut Port, line: &mut Line) -> Option<()> {
    let loaded = take_port(&mut s)?;
    s.end()?;
    *port = loaded;
    line.word(b"ok");
    Some(())
}

// show
fn call_show(s: Scan, port: &Port, line: &mut Line) -> Option<()> {
    s.end()?;
    line.word(b"port");
    say_port(line, port);
    Some(())
}

// duration LENGTH SPEED
fn call_duration(mut s: Scan, line: &mut Line) -> Option<()> {
    let length = s.number()?;
    let speed = s.number()?;
    s.end()?;
    match frames::duration(length, speed) {
        Ok(FrameTime { last, next }) => {
            line.word(b"duration");
            line.numbers(&[last, next]);
        }
        Err(r) => line.refused(r),
    }
    Some(())
}
