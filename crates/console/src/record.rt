// A port's record in a line, as load takes it and show prints it, however malformed:
// CLOCK ON STANDING, OP LEN CYCLE EXT INSTALLED K o1 i1 .. oK iK, WP LEN CYCLE EXT SUBMITTED CHANGE K o1 i1 .. oK iK, FP CLASS START LAST END COUNTED, ERRORS, v0 .. v7.
use crate::answer::Line;
use crate::lists::{say_list, take_list};
use frames::Frame;
use gatelist::GateList;
use port::Port;
use text::Scan;
use timetable::{Times, Timetable};

// Takes a record.
pub fn take_port(s: &mut Scan) -> Option<Port> {
    let clock = s.number()?;
    let on = s.number()?;
    let standing = s.number()?;
    let operates = s.number()?;
    let len = s.number()?;
    let cycle = s.number()?;
    let extension = s.number()?;
    let start = s.number()?;
    let GateList {
        octets,
        intervals,
        ..
    } = take_list(s, len)?;
    let waits = s.number()?;
    let newlen = s.number()?;
    let newcycle = s.number()?;
    let newextension = s.number()?;
    let since = s.number()?;
    let change = s.number()?;
    let GateList {
        octets: newoctets,
        intervals: newintervals,
        ..
    } = take_list(s, newlen)?;
    let frame = take_frame(s)?;
    let errors = s.number()?;
    let times = Times {
        clock,
        on,
        standing,
        operates,
        waits,
        len,
        cycle,
        extension,
        start,
        newlen,
        newcycle,
        newextension,
        change,
        since,
        errors,
    };
    let gates = Timetable {
        times,
        octets,
        intervals,
        newoctets,
        newintervals,
    };
    let overruns = take_numbers(s)?;
    Some(Port {
        frame,
        gates,
        overruns,
    })
}

fn take_frame(s: &mut Scan) -> Option<Frame> {
    let present = s.number()?;
    let class = s.number()?;
    let start = s.number()?;
    let last = s.number()?;
    let end = s.number()?;
    let counted = s.number()?;
    Some(Frame {
        present,
        class,
        counted,
        start,
        last,
        end,
    })
}

// Takes a number for each class.
pub fn take_numbers(s: &mut Scan) -> Option<[u64; 8]> {
    let mut numbers = [0; 8];
    for x in numbers.iter_mut() {
        *x = s.number()?;
    }
    Some(numbers)
}

// Says a record.
pub fn say_port(line: &mut Line, p: &Port) {
    let t = p.gates.times;
    line.number(t.clock);
    line.number(t.on);
    line.number(t.standing);
    line.number(t.operates);
    line.count(t.len);
    line.number(t.cycle);
    line.number(t.extension);
    line.number(t.start);
    say_list(line, &p.gates.octets, &p.gates.intervals);
    line.number(t.waits);
    line.count(t.newlen);
    line.number(t.newcycle);
    line.number(t.newextension);
    line.number(t.since);
    line.number(t.change);
    say_list(line, &p.gates.newoctets, &p.gates.newintervals);
    say_frame(line, p.frame);
    line.number(t.errors);
    line.numbers(&p.overruns);
}

fn say_frame(line: &mut Line, f: Frame) {
    line.number(f.present);
    line.number(f.class);
    line.number(f.start);
    line.number(f.last);
    line.number(f.end);
    line.number(f.counted);
}
