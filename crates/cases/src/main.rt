// Worked sheets, as a table on standard input: a line that begins with # is a title and is written as it stands; any other line is a sheet in hexadecimal digits, and its
// listing is written. What is written is compared with crates/cases/stdout.
#![tactic(auto)]

use std::fmt;

// The longest table, in octets, and the longest sheet that is tried.
const TABLE: usize = 16384;

const SHEET: usize = 2048;

// Why it ends before the table does.
#[derive(Clone, Copy, Debug, PartialEq, Eq)]
enum Fault {
    Unread,
    TooLong,
    NoEnd,
    NotDone,
}

// What standard error says of it.
impl fmt::Display for Fault {
    fn fmt<W: fmt::Write>(&self, f: &mut fmt::Formatter<W>) -> fmt::Result {
        f.write_str(match self {
            Fault::Unread => "cases: standard input cannot be read",
            Fault::TooLong => "cases: the table is too long",
            Fault::NoEnd => "cases: the last line has no end",
            Fault::NotDone => "cases: a line is no sheet, or cannot be written",
        })
    }
}

// Writes a title as it stands.
fn title(line: &[u8]) -> Result<(), Fault> {
    if io::write_all(1, line) & io::write_all(1, b"\n") {
        Ok(())
    } else {
        Err(Fault::NotDone)
    }
}

// Writes the listing of a sheet in hexadecimal digits.
fn listing(line: &[u8]) -> Result<(), Fault> {
    let mut sheet = [0u8; SHEET];
    let n = text::from_hex(line, &mut sheet).ok_or(Fault::NotDone)?;
    lister::list(&sheet[..n]).map_err(|_| Fault::NotDone)?;
    Ok(())
}

// Each line, until one cannot be done.
fn rows(table: &[u8]) -> Result<(), Fault> {
    for line in table.split_inclusive(|octet| *octet == b'\n') {
        let line = line.strip_suffix(b"\n").ok_or(Fault::NoEnd)?;
        match line {
            [] => {}
            [b'#', ..] => title(line)?,
            _ => listing(line)?,
        }
    }
    Ok(())
}

fn run(rt: &impl std::io::Input) -> Result<(), Fault> {
    let mut table = [0u8; TABLE];
    let n = text::take_all(rt, &mut table).map_err(|_| Fault::Unread)?;
    if TABLE <= n {
        return Err(Fault::TooLong);
    }
    rows(&table[..n])
}

fn main(rt: HostRuntime) {
    if let Err(fault) = run(&rt) {
        let _ = eprintln!(rt; "{fault}");
    }
}
