// What the listing program does with a sheet: reads it and its list, makes a port at start, switches it on, submits, steps to end, and writes start, changes
// and end to standard output. A refusal, met in that order after 15, writes only its number; nothing is written before the last refusal is ruled out. Pages
// are filled by proved functions and handed to standard output whole.
#![tactic(auto)]

ghost use Rattle.std.specs.Prelude.{◌≡◌, ◌-◌, IfOk};
ghost use Rattle.port.specs.Coding.{decode};
ghost use Rattle.lister.specs.Lines.{listing, refused_line, span_lines};
ghost use Rattle.lister.specs.Pages.{Lists, clock_of};

use crate::lines::PAGE;
use crate::span::Span;
use rule::Refusal;

mod lines;
mod opening;
mod span;
mod strides;

// A write to standard output failed, and the listing is cut.
#[derive(Clone, Copy, Debug, PartialEq, Eq)]
pub struct Cut;

// Writes the first n octets of a page to standard output, and answers how many.
fn written(page: &[u8; PAGE], n: usize) -> Result<u64, Cut>
    ensures { IfOk result (λ m. m ≡ n) }
{
    if text::show(page, n) {
        Ok(n as u64)
    } else {
        Err(Cut)
    }
}

// Writes the listing of a refusal.
fn list_refusal(r: Refusal) -> Result<u64, Cut>
    ensures { Lists (refused_line r) result }
{
    let mut page = [0; PAGE];
    let n = lines::put_refused(&mut page, r);
    written(&page, n)
}

// Writes the listing of a port to the end of its span.
fn list_port(span: Span) -> Result<u64, Cut>
    ensures { Lists (span_lines (span.end - clock_of span.port) (decode span.port)) result }
{
    let mut page = [0; PAGE];
    let n = lines::put_start(&mut page, span);
    let first = written(&page, n)?;
    let (ended, octets) = strides::strides(span, &mut page)?;
    let n = lines::put_end(&mut page, ended);
    let last = written(&page, n)?;
    Ok(first + octets + last)
}

// Writes the listing of a sheet to standard output, and answers how many octets it has. What is cut may have been written in part.
#[tactic(auto, using(crate::proofs::Striding::list_refused, crate::proofs::Striding::list_spanned))]
pub fn list(s: &[u8]) -> Result<u64, Cut>
    ensures { Lists (listing s.now) result }
{
    match opening::from_sheet(s) {
        Ok(span) => list_port(span),
        Err(r) => list_refusal(r),
    }
}
