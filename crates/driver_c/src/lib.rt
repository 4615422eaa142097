// The calls of crate `driver`, exported to C: include/port.h has the record and what a caller must keep. Each is the library's call, with the same promise.
#![tactic(auto)]

ghost use Rattle.driver.specs.Lent.{Lends};

use driver::Answer;
use port::Port;

// Chooses a frame by the heads of the eight queues (0: empty) and the speed in Mbit/s, and stores it in the lent port. Refused: 14, 13, 17, 12.
#[unsafe(no_mangle)]
pub extern "C" fn kurfandaz_transmit(p: &mut Port, heads: &[u64; 8], speed: u64) -> Answer
    ensures { Lends heads.now speed p.old result p.new }
{
    driver::kurfandaz_transmit(p, heads, speed)
}
