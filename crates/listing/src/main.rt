// The listing program: a sheet on standard input, the port's changes on standard output. One octet more than a sheet has tells one that is too long. Of an input that
// cannot be read nothing is listed; what went wrong is said on standard error.
#![tactic(auto)]

use lister::Cut;

fn main(rt: HostRuntime) {
    let mut octets = [0u8; 1025];
    let Ok(n) = text::take_all(&rt, &mut octets) else {
        let _ = eprintln!(rt; "listing: standard input cannot be read");
        return;
    };
    if let Err(Cut) = lister::list(&octets[..n]) {
        let _ = eprintln!(rt; "listing: standard output cannot be written");
    }
}
