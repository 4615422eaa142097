// The lines of a listing, put into a page.
ghost use Rattle.std.specs.Prelude.{◌≡◌, ◌+◌, ◌≤◌, length};
ghost use Rattle.std.specs.List.{zip};
ghost use Rattle.rule.specs.Timetable.{shown_now};
ghost use Rattle.port.specs.Coding.{decode};
ghost use Rattle.text.specs.Put.{Puts};
ghost use Rattle.lister.specs.Lines.{moment_text, change_line, change_lines, refused_line, first_line, last_line};
ghost use Rattle.lister.specs.Pages.{Fills};

use crate::span::Span;
use rule::Refusal;

// The octets of a page: room for the lines of 1,024 changes, of which each has at most 24.
pub const PAGE: usize = 24_576;

// Puts an instant and an octet, with a space between.
fn moment(out: &mut [u8], at: usize, instant: u64, octet: u8) -> usize
    requires { at + 23 ≤ length out.old }
    ensures { Puts (moment_text instant octet) at out.old result out.new }
{
    let at = text::decimal(out, at, instant);
    let at = text::put(out, at, b" ");
    text::hex(out, at, octet)
}

// Puts a change's line.
fn line(out: &mut [u8], at: usize, instant: u64, octet: u8) -> usize
    requires { at + 24 ≤ length out.old }
    ensures puts { Puts (change_line instant octet) at out.old result out.new }
    ensures octet_len_bound { length (change_line instant octet) ≤ 24 }
{
    let at = moment(out, at, instant, octet);
    text::put(out, at, b"\n")
}

// Fills a page with a refusal's line.
pub fn put_refused(page: &mut [u8; PAGE], r: Refusal) -> usize
    ensures { Fills (refused_line r) page.old page.new result }
{
    let at = text::put(page, 0, b"refused ");
    let at = text::decimal(page, at, u64::from(u8::from(r)));
    text::put(page, at, b"\n")
}

// The octet that a port shows at its clock: a look there is not refused.
#[tactic(auto, using(crate::proofs::Opened::look_shown))]
fn shown(span: Span) -> u8
    ensures { result ≡ shown_now (decode span.port).gates }
{
    span.port.look(span.port.gates.times.clock).unwrap_or(0)
}

// Fills a page with the line of the start: its instant, and the octet after the submission.
pub fn put_start(page: &mut [u8; PAGE], span: Span) -> usize
    ensures { Fills (first_line (decode span.port)) page.old page.new result }
{
    let at = text::put(page, 0, b"start ");
    line(page, at, span.port.gates.times.clock, shown(span))
}

// Fills a page with the line of the end: its instant, its octet, ConfigChangeError.
pub fn put_end(page: &mut [u8; PAGE], span: Span) -> usize
    ensures { Fills (last_line (decode span.port)) page.old page.new result }
{
    let at = text::put(page, 0, b"end ");
    let at = moment(page, at, span.port.gates.times.clock, shown(span));
    let at = text::put(page, at, b" errors ");
    let at = text::decimal(page, at, span.port.gates.times.errors);
    text::put(page, at, b"\n")
}

// Fills a page with the lines of the changes that a step wrote.
pub fn put_changes(page: &mut [u8; PAGE], instants: &[u64], octets: &[u8]) -> usize
    requires { length instants.now ≤ 1024 }
    ensures { Fills (change_lines (zip instants.now octets.now)) page.old page.new result }
{
    let mut at = 0;
    for (instant, octet) in instants.iter().zip(octets) {
        at = line(page, at, *instant, *octet);
    }
    at
}
