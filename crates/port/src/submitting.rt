// Submit, which takes the place of what waits, and the strict submission, which does not.
ghost use Rattle.std.specs.Prelude.{◌≡◌};
ghost use Rattle.rule.specs.Acts as model;
ghost use Rattle.gatelist.specs.Places.{cleaned_list};
ghost use Rattle.submission.specs.Placement.{listed_in};
ghost use Rattle.port.specs.Acts.{Performs, submission};
ghost use Rattle.port.specs.Updates.{submit_act, late_for};

use crate::acts::done;
use crate::{Acted, Port};
use gatelist::GateList;
use submission::Submission;
use timetable::{Times, Timetable};

// Whether 7 refuses a submission: a strict one while another waits, any other once the last old cycle has begun under what waits.
fn too_late(x: Times, strict: bool) -> bool
    ensures { result ≡ late_for strict x }
{
    if strict {
        return x.waits == 1;
    }
    x.last_begun()
}

// Stores the numbers of a timetable that a submission was placed in, and the list where they say that it belongs: no part is copied.
#[tactic(auto, unfolding(gatelist::specs::Places::cleaned_list, gatelist::specs::Coding::padded))]
fn place(g: &mut Timetable, x: Times, list: &GateList)
    ensures { g.new ≡ listed_in (cleaned_list list.now) x g.old }
{
    g.times = x;
    if x.waits == 1 {
        gatelist::put(&list.octets, list.len, &mut g.newoctets);
        gatelist::put(&list.intervals, list.len, &mut g.newintervals);
    } else {
        gatelist::put(&list.octets, list.len, &mut g.octets);
        gatelist::put(&list.intervals, list.len, &mut g.intervals);
        g.newoctets = [0; 128];
        g.newintervals = [0; 128];
    }
}

// A submission, strict or not (`submit_act`): refused, or with its numbers and its list where they belong in the one record.
fn submitted(port: Port, strict: bool, list: GateList, s: Submission) -> Acted<()>
    ensures { Performs (model.gates (submit_act strict (submission list s.numerator s.denominator s.extension s.base))) port result }
{
    let x = port.gates.times;
    let mut p = port;
    let formed = port.well_formed();
    let late = too_late(x, strict);
    let answer = submission::judged(x, formed, late, list.entries(), s);
    if let Err(_) = answer {
        return Acted { answer, port: p };
    }
    place(&mut p.gates, submission::placed(x, list.len, s), &list);
    if p.frame.present == 1 {
        return done(p);
    }
    Acted { answer, port: p }
}

impl Port {
    // Submits a list with its cycle in seconds, its extension in nanoseconds and its base time, in the place of what waits. Refused: 14, 6, 7, 8, 9, 5, 4.
    pub fn submit(self, list: GateList, s: Submission) -> Acted<()>
        ensures { Performs (model.gates (model.submit (submission list s.numerator s.denominator s.extension s.base))) self result }
    {
        submitted(self, false, list, s)
    }

    // The same while nothing waits. Refused: 14, 6, 7, 8, 9, 5, 4.
    pub fn submit_strict(self, list: GateList, s: Submission) -> Acted<()>
        ensures { Performs (model.gates (model.strict (submission list s.numerator s.denominator s.extension s.base))) self result }
    {
        submitted(self, true, list, s)
    }
}
