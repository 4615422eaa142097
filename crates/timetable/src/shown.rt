// What is shown at an instant, if no further act comes.
ghost use Rattle.std.specs.Prelude.{◌≡◌};
ghost use Rattle.rule.specs.Timetable.{shown};
ghost use Rattle.timetable.specs.Coding.{decode};

use crate::Timetable;

impl Timetable {
    // What it shows at t: the octet of the span that rules then, by the time since its start.
    pub fn shown_at(&self, t: u64) -> u8
        ensures { result ≡ shown (decode self.now) t }
    {
        let span = self.times.regime(t);
        match span.list {
            None => self.times.standing,
            Some(which) => {
                let offset = t.saturating_sub(span.start);
                self.list(which).octet_at(offset)
            }
        }
    }
}
