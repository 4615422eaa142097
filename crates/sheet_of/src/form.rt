// The text form, line by line: each line sets a field or adds an entry; the first error ends it.
use crate::error::Fault;
use gatelist::GateList;
use std::fmt;

// What a line is about: the word that it begins with.
#[derive(Clone, Copy, Debug, PartialEq, Eq)]
pub enum Field {
    Standing,
    Cycle,
    Extension,
    Base,
    Start,
    End,
    Entry,
}

impl TryFrom<&[u8]> for Field {
    type Error = Fault;

    fn try_from(word: &[u8]) -> Result<Field, Fault> {
        match word {
            b"standing" => Ok(Field::Standing),
            b"cycle" => Ok(Field::Cycle),
            b"extension" => Ok(Field::Extension),
            b"base" => Ok(Field::Base),
            b"start" => Ok(Field::Start),
            b"end" => Ok(Field::End),
            b"entry" => Ok(Field::Entry),
            _ => Err(Fault::UnknownWord),
        }
    }
}

impl fmt::Display for Field {
    fn fmt<W: fmt::Write>(&self, f: &mut fmt::Formatter<W>) -> fmt::Result {
        match self {
            Field::Standing => write!(f, "standing"),
            Field::Cycle => write!(f, "cycle"),
            Field::Extension => write!(f, "extension"),
            Field::Base => write!(f, "base"),
            Field::Start => write!(f, "start"),
            Field::End => write!(f, "end"),
            Field::Entry => write!(f, "entry"),
        }
    }
}

// The fields given so far, and the entries.
#[derive(Clone, Copy)]
pub struct Form {
    standing: Option<u8>,
    cycle: Option<(u32, u32)>,
    extension: Option<u32>,
    base: Option<u64>,
    start: Option<u64>,
    end: Option<u64>,
    pub list: GateList,
}

// A word as a number: decimal, or hexadecimal after 0x. Not by crate text's, which is decimal alone and does not say what is wrong.
fn number<T: TryFrom<u64>>(word: &[u8]) -> Result<T, Fault>
where
    T::Error: Drop,
{
    let (digits, radix) = match word.strip_prefix(b"0x") {
        Some(digits) => (digits, 16),
        None => (word, 10),
    };
    if digits.is_empty() {
        return Err(Fault::NoNumber);
    }
    let mut value: u64 = 0;
    for digit in digits {
        let digit = char::from(*digit).to_digit(radix).ok_or(Fault::NoNumber)?;
        value = value
            .checked_mul(u64::from(radix))
            .and_then(|v| v.checked_add(u64::from(digit)))
            .ok_or(Fault::TooLarge)?;
    }
    T::try_from(value).map_err(|_| Fault::TooLarge)
}

// A field is given once.
fn give<T: Copy>(field: &mut Option<T>, value: T) -> Result<(), Fault> {
    if field.is_some() {
        return Err(Fault::Twice);
    }
    *field = Some(value);
    Ok(())
}

impl Form {
    pub fn new() -> Form {
        Form {
            standing: None,
            cycle: None,
            extension: None,
            base: None,
            start: None,
            end: None,
            list: GateList::empty(),
        }
    }

    // Adds an entry.
    fn add(&mut self, octet: u8, interval: u32) -> Result<(), Fault> {
        let n = self.list.len;
        if GateList::MAX <= n {
            return Err(Fault::TooManyEntries);
        }
        if interval == 0 {
            return Err(Fault::NoInterval);
        }
        self.list.octets[n] = octet;
        self.list.intervals[n] = interval;
        self.list.len = n + 1;
        Ok(())
    }

    // Takes a line, with its end. What stands behind a # is a remark.
    pub fn take(&mut self, line: &[u8]) -> Result<(), Fault> {
        let told = line.split(|b| *b == b'#').next().unwrap_or(line);
        let mut words = told
            .split(|b| matches!(*b, b' ' | b'\t' | b'\r' | b'\n'))
            .filter(|w| !w.is_empty());
        let Some(word) = words.next() else {
            return Ok(());
        };
        let field = Field::try_from(word)?;
        match (field, words.next(), words.next(), words.next()) {
            (Field::Standing, Some(x), None, None) => give(&mut self.standing, number(x)?),
            (Field::Cycle, Some(x), Some(y), None) => {
                give(&mut self.cycle, (number(x)?, number(y)?))
            }
            (Field::Extension, Some(x), None, None) => give(&mut self.extension, number(x)?),
            (Field::Base, Some(x), None, None) => give(&mut self.base, number(x)?),
            (Field::Start, Some(x), None, None) => give(&mut self.start, number(x)?),
            (Field::End, Some(x), None, None) => give(&mut self.end, number(x)?),
            (Field::Entry, Some(x), Some(y), None) => self.add(number(x)?, number(y)?),
            _ => Err(Fault::Count),
        }
    }

    // The eight numbers of the sheet in their order, or the first field that is not given.
    pub fn numbers(&self) -> Result<[u64; 8], Fault> {
        let standing = self.standing.ok_or(Fault::Missing(Field::Standing))?;
        let (numerator, denominator) = self.cycle.ok_or(Fault::Missing(Field::Cycle))?;
        let extension = self.extension.ok_or(Fault::Missing(Field::Extension))?;
        let base = self.base.ok_or(Fault::Missing(Field::Base))?;
        let start = self.start.ok_or(Fault::Missing(Field::Start))?;
        let end = self.end.ok_or(Fault::Missing(Field::End))?;
        Ok([
            u64::from(standing),
            u64::from(numerator),
            u64::from(denominator),
            u64::from(extension),
            base,
            start,
            end,
            self.list.len as u64,
        ])
    }
}
