// A sheet's octets.
ghost use Rattle.std.specs.Prelude.{◌≡◌, ◌≤◌, length, IfOk};

use gatelist::GateList;
use rule::Refusal;

// A number's octets at a place, and the place after them.
#[tactic(auto, unfolding(numbers::specs::Writing::write_number))]
fn put_number(out: &mut [u8], at: usize, n: u64) -> Result<usize, Refusal>
    requires { at ≤ length out.old }
    ensures place { IfOk result (λ end. end ≤ length out.old) }
    ensures room { length out.new ≡ length out.old }
{
    let count = numbers::write(n, &mut out[at..])?;
    Ok(at + count)
}

// A list's octets at a place, and the place after them. An empty list has none.
#[tactic(auto, unfolding(octets::specs::Octets::write_list))]
fn put_list(out: &mut [u8], at: usize, list: GateList) -> Result<usize, Refusal>
    requires { at ≤ length out.old }
    ensures place { IfOk result (λ end. end ≤ length out.old) }
    ensures room { length out.new ≡ length out.old }
{
    if list.len == 0 {
        return Ok(at);
    }
    let count = octets::write(list, &mut out[at..])?;
    Ok(at + count)
}

// The octets of a sheet at the front of a buffer, and how many they are: its eight numbers, and its list.
pub fn put(out: &mut [u8], numbers: [u64; 8], list: GateList) -> Result<usize, Refusal>
    ensures place { IfOk result (λ end. end ≤ length out.old) }
    ensures room { length out.new ≡ length out.old }
{
    let mut at = 0;
    for n in numbers {
        at = put_number(out, at, n)?;
    }
    put_list(out, at, list)
}
