// The console: one call to a line of standard input, one answer to a line of standard output. Each line is answered before the next is looked at.
#![tactic(auto)]

mod answer;
mod calls;
mod coded;
mod input;
mod lists;
mod record;

// The input is taken up to 1,048,576 octets, with one place more to know that there are more. No answer is longer than the second buffer.
fn main(rt: HostRuntime) {
    let mut taken = [0u8; input::LONGEST + 1];
    let mut out = [0u8; 131072];
    if let Err(fault) = input::serve(&rt, &mut taken, &mut out) {
        let _ = eprintln!(rt; "{fault}");
    }
}
