// bench CASE N: does the work of a case N times and writes a checksum. `bench all N` does every case. What each case is stands in peer/README.md, and
// peer/bench does the same work: bench/run counts the instructions of both.
#![tactic(auto)]

mod lists;
mod work;

use gatelist::GateList;
use lists::{alternating, closing, counting, list_of, pair};
use std::env::Env;
use text::Scan;
use work::{cycle_of, set_up};

// What is asked for: a case or `all`, and how often its work is to be done.
#[derive(Clone, Copy)]
struct Asked<'a> {
    name: &'a [u8],
    times: u64,
}

impl Asked<'_> {
    // Does a case's work if it is asked for, and writes its name, how often its work was done, and the sum.
    fn case<F: FnOnce(u64) -> u64>(&self, case: &[u8], work: F)
        requires { F.IsAlwaysCallable work }
    {
        if !text::same(self.name, case) && !text::same(self.name, b"all") {
            return;
        }
        let sum = work(self.times);
        let mut out = [0u8; 96];
        let at = text::put(&mut out, 0, case);
        let at = text::spaced(&mut out, at, self.times);
        let at = text::put(&mut out, at, b" checksum");
        let at = text::spaced(&mut out, at, sum);
        let at = text::put(&mut out, at, b"\n");
        text::show(&out, at);
    }
}

// 128 entries of 1,000 ns, all different.
fn long_list() -> GateList {
    list_of(counting(), 1000, 128)
}

fn octets_of_lists(asked: &Asked) {
    let l = long_list();
    asked.case(b"read128", |times| work::reads(l, times));
    asked.case(b"write128", |times| work::writes(l, times));
}

fn acts_and_looks(asked: &Asked) {
    let l = long_list();
    let p = set_up(l, 128, 1_000_000);
    asked.case(b"submit", |times| work::submits(p, l, times));
    asked.case(b"look", |times| work::looks(p, times));
    asked.case(b"check14", |times| {
        let q = p.submit(l, cycle_of(128, 1_000_000, 1_000_000)).port;
        let t = q.transmit([64u64; 8], 1000);
        work::checks(t.port, times)
    });
}

fn steps(asked: &Asked) {
    asked.case(b"step128", |times| {
        let p = set_up(long_list(), 128, 1_000_000);
        work::steps(p, 1_000_000, times)
    });
    asked.case(b"step2", |times| {
        let l = list_of(alternating(), 1000, 2);
        let p = set_up(l, 2, 1_000_000);
        work::steps(p, 1_000_000, times)
    });
}

fn quiet_steps(asked: &Asked) {
    asked.case(b"quiet", |times| {
        let l = list_of([0x80u8; 128], 1, 128);
        let p = set_up(l, 128, 1_000_000_000);
        work::steps(p, 1_000_000_000, times)
    });
    asked.case(b"quiet1", |times| {
        let l = list_of(counting(), 1, 128);
        let p = set_up(l, 1, 1_000_000_000);
        work::steps(p, 1_000_000_000, times)
    });
}

fn transmits(asked: &Asked) {
    asked.case(b"transmit-first", |times| {
        let p = set_up(list_of(counting(), 125, 128), 16, 1_000_000);
        work::transmits(p, 1500, 1000, times)
    });
    asked.case(b"transmit-none", |times| {
        let p = set_up(list_of(closing(0), 125, 128), 16, 1_000_000);
        work::transmits(p, 2000, 1000, times)
    });
    asked.case(b"transmit-10", |times| {
        let p = set_up(list_of(closing(0x80), 125, 128), 16, 1_000_000);
        work::transmits(p, 2000, 10, times)
    });
    asked.case(b"transmit-change", |times| {
        let p = set_up(list_of(pair(128), 125, 128), 8, 1_000_000);
        let next = p.submit(list_of(pair(8), 125, 128), cycle_of(8, 1_000_000, 15_000));
        work::transmits(next.port, 1500, 1000, times)
    });
}

// An argument that is missing, or longer than its buffer, is taken as empty.
fn main(rt: HostRuntime) {
    let mut name = [0u8; 32];
    let n = rt.arg(1, &mut name).unwrap_or(0);
    let mut count = [0u8; 32];
    let m = rt.arg(2, &mut count).unwrap_or(0);
    let asked = Asked {
        name: &name[..n],
        times: Scan::new(&count[..m]).number().unwrap_or(0),
    };
    octets_of_lists(&asked);
    acts_and_looks(&asked);
    steps(&asked);
    quiet_steps(&asked);
    transmits(&asked);
}
