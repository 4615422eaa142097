// The span of a port: steps to its end, each with room for 1,024 changes, whose lines are written before the next step.
ghost use Rattle.std.specs.Prelude.{◌<◌, IfOk};
ghost use Rattle.lister.specs.Pages.{OneStride, WholeSpan, clock_of};

use crate::lines::{PAGE, put_changes};
use crate::span::Span;
use crate::{Cut, written};

// A step towards the end, which is not refused, as far as the room goes; the page is filled with the lines of its changes, whose octets are counted.
fn stride(span: Span, page: &mut [u8; PAGE]) -> (Span, usize)
    requires { clock_of span.port < span.end }
    ensures { OneStride span page.old page.new result }
{
    let mut instants = [0u64; 1024];
    let mut octets = [0u8; 1024];
    let s = span.port.step(span.end, &mut instants, &mut octets);
    let n = s.answer.unwrap_or(0);
    let used = put_changes(page, &instants[..n], &octets[..n]);
    let rest = Span {
        port: s.port,
        end: span.end,
    };
    (rest, used)
}

// Strides until the end, or until a write fails; the octets of all pages are counted.
pub fn strides(span: Span, page: &mut [u8; PAGE]) -> Result<(Span, u64), Cut>
    ensures { IfOk result (WholeSpan span) }
{
    let mut rest = span;
    let mut octets: u64 = 0;
    while rest.port.gates.times.clock < rest.end {
        let (next, used) = stride(rest, page);
        octets += written(page, used)?;
        rest = next;
    }
    Ok((rest, octets))
}
