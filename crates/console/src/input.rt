// The lines of standard input, answered one by one as they come. A read or a write that fails ends it; a line that a failed read has cut is not looked at.
ghost use Rattle.std.specs.Prelude.{◌≤◌, length, IfOk};

use crate::answer::Line;
use crate::calls::call;
use port::Port;
use std::fmt;

// The octets that are taken at most.
pub const LONGEST: usize = 1048576;

// Why it ends before the input does.
#[derive(Clone, Copy, Debug, PartialEq, Eq)]
pub enum Fault {
    Unread,
    Unwritten,
    TooLong,
}

// What standard error says of it.
impl fmt::Display for Fault {
    fn fmt<W: fmt::Write>(&self, f: &mut fmt::Formatter<W>) -> fmt::Result {
        f.write_str(match self {
            Fault::Unread => "console: standard input cannot be read",
            Fault::Unwritten => "console: standard output cannot be written",
            Fault::TooLong => "console: the input has more than 1048576 octets",
        })
    }
}

// Answers a line, if it is not empty and no remark.
fn answer(s: &[u8], port: &mut Port, out: &mut [u8]) -> Result<(), Fault> {
    if s.is_empty() || s.starts_with(b"#") {
        return Ok(());
    }
    let mut line = Line::new(out);
    if call(s, port, &mut line).is_none() {
        line.word(b"not a call");
    }
    if line.show() {
        Ok(())
    } else {
        Err(Fault::Unwritten)
    }
}

// Answers each whole line, and gives how many octets are left behind the last.
fn answer_lines(s: &[u8], port: &mut Port, out: &mut [u8]) -> Result<usize, Fault>
    ensures { IfOk result (λ left. left ≤ length s.now) }
{
    for line in s.split_inclusive(|octet| *octet == b'\n') {
        match line.strip_suffix(b"\n") {
            Some(line) => answer(line, port, out)?,
            None => return Ok(line.len()),
        }
    }
    Ok(0)
}

// Answers the input to its end; there, also a last line with no line end. Each turn but the last takes an octet, so there are no more turns than octets.
pub fn serve(
    rt: &(impl Input + Eprint),
    taken: &mut [u8; LONGEST + 1],
    out: &mut [u8; 131072],
) -> Result<(), Fault> {
    let mut port = Port::new(0, 0).port;
    let mut begun = 0;
    let mut used = 0;
    for _ in 0..LONGEST + 2 {
        let now = text::take(rt, taken, used).map_err(|_| Fault::Unread)?;
        if now == used {
            return answer(&taken[begun..used], &mut port, out);
        }
        used = now;
        let left = answer_lines(&taken[begun..used.min(LONGEST)], &mut port, out);
        if LONGEST < used {
            // An answer that could not be written is said besides.
            if let Err(fault) = left {
                let _ = eprintln!(rt; "{fault}");
            }
            io::write_all(1, b"input too long\n");
            return Err(Fault::TooLong);
        }
        begun = used - left?;
    }
    Ok(())
}
