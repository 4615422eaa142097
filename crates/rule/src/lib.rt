// What a call declines with: a name for each number of document 01, 'Numbers returned when a call declines'. Every crate above uses these names;
// the number itself is for whoever prints or stores an answer.
#![tactic(auto)]

ghost use Rattle.rule.specs.Answers.{Numbers, First};

#[derive(Clone, Copy, Debug, PartialEq, Eq)]
pub enum Refusal {
    CutShort,
    Operation,
    LengthOctet,
    ZeroInterval,
    ListLength,
    SwitchedOff,
    ChangeWaits,
    CycleTime,
    AboveLargest,
    BeforeClock,
    StepTooLong,
    HeadLength,
    Speed,
    MalformedPort,
    MalformedSheet,
    BufferShort,
    FrameSending,
}

// Document 01's number of a refusal, 1 to 17.
impl From<Refusal> for u8 {
    ghost from_gives = { Numbers };

    fn from(refusal: Refusal) -> u8 {
        match refusal {
            Refusal::CutShort => 1,
            Refusal::Operation => 2,
            Refusal::LengthOctet => 3,
            Refusal::ZeroInterval => 4,
            Refusal::ListLength => 5,
            Refusal::SwitchedOff => 6,
            Refusal::ChangeWaits => 7,
            Refusal::CycleTime => 8,
            Refusal::AboveLargest => 9,
            Refusal::BeforeClock => 10,
            Refusal::StepTooLong => 11,
            Refusal::HeadLength => 12,
            Refusal::Speed => 13,
            Refusal::MalformedPort => 14,
            Refusal::MalformedSheet => 15,
            Refusal::BufferShort => 16,
            Refusal::FrameSending => 17,
        }
    }
}

// An order of refusals is a chain of tests: the first that holds gives its reason, else the rest of the chain answers. No early returns: such a chain is one
// list, the order of the documents (`Chain`), and what it says is `first_unique`'s.
#[tactic(auto, unfolding(crate::specs::Answers::first_answer))]
pub fn first(test: bool, reason: Refusal, rest: Result<(), Refusal>) -> Result<(), Refusal>
    ensures { First test reason rest result }
{
    if test { Err(reason) } else { rest }
}
