// From the octets of a sheet to its port after the submission, or to the first refusal in the listing's order.
ghost use Rattle.std.specs.Prelude.{◌≡◌, drop};
ghost use Rattle.gatelist.specs.Coding.{list_of};
ghost use Rattle.octets.specs.Octets.{reading_of, read_list};
ghost use Rattle.lister.specs.Opening.{opening, opening_with};
ghost use Rattle.lister.specs.Pages.{Opens};

use crate::span::Span;
use gatelist::GateList;
use octets::ReadError;
use port::Port;
use rule::Refusal;
use sheet::Sheet;
use submission::Submission;

// The port of a sheet with its list: made, switched on, submitted to; and a step to the end is accepted, which has no room and so writes nothing.
fn with_list(h: Sheet, list: GateList) -> Result<Span, Refusal>
    ensures { Opens (opening_with h (list_of list)) result }
{
    let made = Port::new(h.start, h.standing);
    made.answer?;
    let on = made.port.on().port;
    let submission = Submission {
        numerator: h.numerator,
        denominator: h.denominator,
        extension: h.extension,
        base: h.base,
    };
    let done = on.submit(list, submission);
    done.answer?;
    let port = done.port;
    port.step(h.end, &mut [], &mut []).answer?;
    Ok(Span { port, end: h.end })
}

// The list whose octets go from a place of the sheet to its end.
fn list_at(s: &[u8], at: usize, stated: u64) -> Result<GateList, ReadError>
    ensures { reading_of result ≡ read_list (drop at s.now) stated }
{
    octets::read(s.get(at..).unwrap_or(&[]), stated)
}

// The port of a sheet.
pub fn from_sheet(s: &[u8]) -> Result<Span, Refusal>
    ensures { Opens (opening s.now) result }
{
    let h = sheet::read(s)?;
    match list_at(s, h.list, h.length) {
        Ok(list) => with_list(h, list),
        // The place of the fault is let go here and nowhere else: a conversion for `?` would let it go unseen.
        Err(e) => Err(e.refusal),
    }
}
