// What is wrong, and the text that says so.
use crate::form::Field;
use std::fmt;

// What is wrong with a line, or with the text at its end.
#[derive(Clone, Copy, Debug, PartialEq, Eq)]
pub enum Fault {
    UnknownWord,
    NoNumber,
    TooLarge,
    Count,
    Twice,
    TooManyEntries,
    NoInterval,
    Missing(Field),
}

impl fmt::Display for Fault {
    fn fmt<W: fmt::Write>(&self, f: &mut fmt::Formatter<W>) -> fmt::Result {
        match *self {
            Fault::UnknownWord => write!(f, "unknown word"),
            Fault::NoNumber => write!(f, "not a number"),
            Fault::TooLarge => write!(f, "number too large for its place"),
            Fault::Count => write!(f, "too few or too many numbers"),
            Fault::Twice => write!(f, "given twice"),
            Fault::TooManyEntries => write!(f, "more than 128 entries"),
            Fault::NoInterval => write!(f, "an interval of 0"),
            Fault::Missing(field) => write!(f, "the sheet has no {field}"),
        }
    }
}

// Why there is no sheet.
#[derive(Clone, Copy, Debug, PartialEq, Eq)]
pub enum Error {
    Unreadable,
    TooLong,
    Line(u64, Fault),
    Unwritable,
}

impl fmt::Display for Error {
    fn fmt<W: fmt::Write>(&self, f: &mut fmt::Formatter<W>) -> fmt::Result {
        match *self {
            Error::Unreadable => write!(f, "sheet_of: standard input cannot be read"),
            Error::TooLong => write!(f, "sheet_of: the text has more than 65536 octets"),
            Error::Line(line, fault) => write!(f, "line {line}: {fault}"),
            Error::Unwritable => write!(f, "sheet_of: standard output cannot be written"),
        }
    }
}
