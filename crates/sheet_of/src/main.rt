// A sheet from a text form for people: reads the text from standard input and writes the sheet's octets to standard output, or the first error with its
// line to standard error. The text has a line for each of `standing OCTET`, `cycle NUMERATOR DENOMINATOR`, `extension NS`, `base NS`, `start NS` and `end NS`,
// each once and in any order, and a line `entry OCTET NS` for each entry, in the list's order, with an interval of at least 1. Numbers are decimal, or hexadecimal after 0x. What stands behind
// a # is a remark. Text of more than 65,536 octets is an error, and so are an input that cannot be read and an output that cannot be written.
#![tactic(auto)]

mod error;
mod form;
mod sheet;

use crate::error::Error;
use crate::form::Form;

// The longest text, in octets.
const LONGEST: usize = 65536;

// The form of a text, up to its first error, and how many lines it has.
fn formed(text: &[u8]) -> Result<(Form, u64), Error> {
    let mut form = Form::new();
    // Counted here, since the error at the text's end names the last line.
    let mut line: u64 = 0;
    for told in text.split_inclusive(|b| *b == b'\n') {
        line = line.saturating_add(1);
        form.take(told).map_err(|fault| Error::Line(line, fault))?;
    }
    Ok((form, line))
}

// Writes the sheet of a text.
fn convert(text: &[u8]) -> Result<(), Error> {
    let (form, line) = formed(text)?;
    let numbers = form.numbers().map_err(|fault| Error::Line(line, fault))?;
    // Room for the longest: eight numbers of at most 10 octets, and 128 entries of 7.
    let mut octets = [0; 1024];
    let n = sheet::put(&mut octets, numbers, form.list).map_err(|_| Error::Unwritable)?;
    if !io::write_all(1, &octets[..n]) {
        return Err(Error::Unwritable);
    }
    Ok(())
}

// Reads the text, with one place more to know that there is more, and writes its sheet.
fn run(rt: &impl std::io::Input) -> Result<(), Error> {
    let mut text = [0; LONGEST + 1];
    let n = text::take_all(rt, &mut text).map_err(|_| Error::Unreadable)?;
    if LONGEST < n {
        return Err(Error::TooLong);
    }
    convert(&text[..n])
}

fn main(rt: HostRuntime) {
    if let Err(error) = run(&rt) {
        let _ = eprintln!(rt; "{error}");
    }
}
