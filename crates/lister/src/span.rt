// The span that is listed. Its struct has a file of its own, since specs/Pages names it.
ghost use Rattle.lister.specs.Ready.{Ready, ready_prop};

use port::Port;

// A port and the end of its span: a step to the end is not refused.
#[derive(Clone, Copy)]
pub struct Span {
    pub port: Port,
    pub end: u64,
    ghost ready: { Ready port end } by { ready_prop port end },
}
