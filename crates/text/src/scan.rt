// The tokens of a line, one space between each two; a token may be empty.
ghost use Rattle.std.specs.Prelude.{Bool, true, false, ◌≡◌, ◌≤◌, is_some, IfSome};
ghost use Rattle.text.specs.Scan.{find_from, same_octets};

use crate::digits::decimal_value;

// What is left of a line: none behind its last token. Begun: a token was asked for.
#[derive(Clone, Copy)]
pub struct Scan<'a> {
    pub rest: Option<&'a [u8]>,
    pub begun: bool,
}

impl<'a> Scan<'a> {
    ghost use Rattle.std.specs.Prelude.{option_copied};
    ghost use Rattle.text.specs.Scan.{left_of, whole_line, token_of, behind_token, at_end};

    // The scan at a line's first token.
    pub fn new(line: &'a [u8]) -> Scan<'a>
        ensures left { left_of result ≡ whole_line line.now }
        ensures begun { result.begun ≡ false }
    {
        Scan {
            rest: Some(line),
            begun: false,
        }
    }

    // The next token.
    pub fn token(&mut self) -> Option<&'a [u8]>
        ensures token { option_copied result ≡ token_of (left_of self.old) }
        ensures left { left_of self.new ≡ behind_token (left_of self.old) }
        ensures begun { self.new.begun ≡ true }
    {
        self.begun = true;
        let rest = self.rest?;
        let end = find(rest, 0, b' ');
        let (token, left) = rest.split_at(end);
        self.rest = left.get(1..);
        Some(token)
    }

    // The next token as a number in decimal that its type holds. The token is taken also where it is none.
    pub fn number<T: TryFrom<u64>>(&mut self) -> Option<T>
    where
        T::Error: Drop,
        ensures left { left_of self.new ≡ behind_token (left_of self.old) }
        ensures begun { self.new.begun ≡ true }
    {
        let value = decimal_value(self.token()?)?;
        T::try_from(value).ok()
    }

    // The next token as a number that is at most the largest.
    pub fn number_up_to(&mut self, largest: u64) -> Option<u64>
        ensures bound { IfSome result (λ value. value ≤ largest) }
        ensures left { left_of self.new ≡ behind_token (left_of self.old) }
        ensures begun { self.new.begun ≡ true }
    {
        let value = self.number()?;
        if value <= largest { Some(value) } else { None }
    }

    // Whether the whole line is taken. A line of no octet is at its end before a token is asked for, too.
    pub fn end(self) -> Option<()>
        ensures { is_some result ≡ at_end self.entry }
    {
        match self.rest {
            None => Some(()),
            Some(rest) if !self.begun && rest.is_empty() => Some(()),
            Some(_) => None,
        }
    }
}

// The first place from a place on that has this octet, or the end; the place itself where it is past the end.
pub fn find(s: &[u8], at: usize, octet: u8) -> usize
    ensures { result ≡ find_from s.now at octet }
{
    let Some(rest) = s.get(at..) else {
        return at;
    };
    at + rest.iter().position(|x| *x == octet).unwrap_or(rest.len())
}

// Two runs of octets are the same.
pub fn same(a: &[u8], b: &[u8]) -> bool
    ensures { result ≡ same_octets a.now b.now }
{
    a == b
}
