// The calls on a list's octets: read and write.
use crate::answer::Line;
use crate::lists::{say_places, take_list};
use gatelist::GateList;
use octets::ReadError;
use text::Scan;

fn say_read(line: &mut Line, r: Result<GateList, ReadError>) {
    match r {
        Ok(l) => {
            line.word(b"list");
            line.count(l.len);
            say_places(line, &l.octets, &l.intervals, l.len);
        }
        Err(e) => {
            line.refused(e.refusal);
            line.count(e.place);
        }
    }
}

// read STATED HEX; - is no octets
pub fn call_read(mut s: Scan, line: &mut Line) -> Option<()> {
    let stated = s.number()?;
    let hex = s.token()?;
    s.end()?;
    let mut code = [0u8; 1024];
    let n = match hex {
        b"-" => 0,
        _ => text::from_hex(hex, &mut code)?,
    };
    say_read(line, octets::read(&code[..n], stated));
    Some(())
}

// write LEN BUFLEN K o1 i1 .. oK iK
pub fn call_write(mut s: Scan, line: &mut Line) -> Option<()> {
    let len = s.number()?;
    let room = s.number_up_to(1024)? as usize;
    let list = take_list(&mut s, len)?;
    s.end()?;
    // Filled once the line is known to be a call.
    let mut buffer = [165u8; 1024];
    let buffer = &mut buffer[..room];
    line.written(octets::write(list, buffer));
    line.numbers(buffer);
    Some(())
}
