// The record of a sheet, read from any octets: eight numbers, and the place at which the list's octets begin. A malformed sheet has no record.
#![tactic(auto)]

ghost use Rattle.std.specs.Prelude.{◌≡◌};
ghost use Rattle.sheet.specs.Sheet.{contents_of, read_sheet, reading_of};

use rule::Refusal;

// A sheet: the standing octet; numerator and denominator of the cycle in seconds; the extension in nanoseconds; base time, start and end; the list's stated
// length; and the place of the first of the list's octets, which go to the sheet's end.
#[derive(Clone, Copy, Debug, PartialEq, Eq)]
pub struct Sheet {
    pub standing: u8,
    pub numerator: u32,
    pub denominator: u32,
    pub extension: u32,
    pub base: u64,
    pub start: u64,
    pub end: u64,
    pub length: u64,
    pub list: usize,
}

// The longest sheet, in octets.
pub const LONGEST: usize = 1024;

// The record, if all eight numbers are there. Each is of the width of its field.
#[tactic(auto, using(crate::proofs::Reading::missing, crate::proofs::Reading::there), unfolding(crate::specs::Sheet::contents_of))]
fn contents(s: &[u8]) -> Option<Sheet>
    ensures { result ≡ contents_of s.now }
{
    let (standing, at) = numbers::read(s, 0)?;
    let (numerator, at) = numbers::read(s, at)?;
    let (denominator, at) = numbers::read(s, at)?;
    let (extension, at) = numbers::read(s, at)?;
    let (base, at) = numbers::read(s, at)?;
    let (start, at) = numbers::read(s, at)?;
    let (end, at) = numbers::read(s, at)?;
    let (length, list) = numbers::read(s, at)?;
    Some(Sheet {
        standing,
        numerator,
        denominator,
        extension,
        base,
        start,
        end,
        length,
        list,
    })
}

// Reads a sheet. Refused: 15.
#[tactic(auto, unfolding(crate::specs::Sheet::read_sheet))]
pub fn read(s: &[u8]) -> Result<Sheet, Refusal>
    ensures { reading_of result ≡ reading_of (read_sheet s.now) }
{
    if LONGEST < s.len() {
        return Err(Refusal::MalformedSheet);
    }
    contents(s).ok_or(Refusal::MalformedSheet)
}
