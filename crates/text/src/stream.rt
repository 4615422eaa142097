// Standard input. A read that fails is told apart from the input's end.
ghost use Rattle.std.specs.Prelude.{length};
ghost use Rattle.text.specs.Input.{Takes};

use std::io::{Read, Result};

// Reads once, behind the octets that are taken, and answers how many are taken then. The same number as before: the input is at its end, or the buffer is full.
// The buffer is lent and no Vec, so that nothing but a read can fail.
pub fn take(rt: &impl std::io::Input, out: &mut [u8], used: usize) -> Result<usize>
    ensures { Takes used (length out.old) result }
{
    if out.len() <= used {
        return Ok(used);
    }
    let more = rt.reader().read(&mut out[used..])?;
    Ok(used + more)
}

// Reads until the buffer is full or the input is at its end.
pub fn take_all(rt: &impl std::io::Input, out: &mut [u8]) -> Result<usize>
    ensures { Takes 0 (length out.old) result }
{
    let mut used: usize = 0;
    // No count: it goes on until a read brings nothing.
    while used < out.len() {
        let n = take(rt, out, used)?;
        if n <= used {
            break;
        }
        used = n;
    }
    Ok(used)
}
