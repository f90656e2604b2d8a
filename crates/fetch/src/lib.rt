// Fetching: the instruction at pc, from memory that is only read. So an illegal instruction stops
// the machine before anything is touched.
#![tactic(auto)]

ghost use Rattle.std.specs.Prelude.{◌≡◌};
ghost use Rattle.fetch.specs.Fetching.{fetched};

use alu::add;
use answers::{Cause, Stop};
use decoder::decode;
use expander::expand;
use isa::Inst;
use octets::load;

// An instruction and its length in bytes, or why there is none.
pub fn fetch(pc: u32, mem: &[u8]) -> Result<(Inst, u32), Cause>
    ensures { result ≡ fetched pc mem.now }
{
    let at = pc as usize;
    let illegal = Cause::new(Stop::IllegalInstruction, pc);
    if at + 2 > mem.len() {
        return Err(Cause::new(Stop::FetchOutside, pc));
    }
    let half = load::<2>(mem, at) as u16;
    if half % 32 == 31 {
        return Err(illegal);
    }
    if half % 4 != 3 {
        let Some(i) = expand(half) else {
            return Err(illegal);
        };
        return Ok((i, 2));
    }
    if at + 4 > mem.len() {
        return Err(Cause::new(Stop::FetchOutside, add(pc, 2)));
    }
    let Some(i) = decode(load::<4>(mem, at) as u32) else {
        return Err(illegal);
    };
    Ok((i, 4))
}
