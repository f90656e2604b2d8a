// The plain engine: the manual's steps, one after the other. A step is fetched, decided, performed
// and applied.
#![tactic(auto)]

ghost use Rattle.std.specs.Prelude.{◌≡◌, ◌+◌, ◌<◌, ◌^◌, length};
ghost use Rattle.boards.specs.Boards.{board};
ghost use Rattle.engine.specs.Steps.{masked, act_at, applied, ran};

use access::Effect;
use alu::add;
use answers::{Cause, Stop};
use boards::Grant;
use execute::{Act, decide, perform};
use fetch::fetch;
use fuses::RowBytes;
use state::State;

const FULL_COUNT: u64 = u64::MAX;

// What the instruction at pc asks for.
fn act_at(pc: u32, x: &[u32; 31], mem: &[u8]) -> Act
    ensures { result ≡ act_at pc x.now mem.now }
{
    match fetch(pc, mem) {
        Ok((i, len)) => decide(i, add(pc, len), pc, x),
        Err(why) => Act::Ends(why),
    }
}

// The state after an effect. x0 drops writes: the registers need not be gone through.
fn apply(s: State, e: Effect) -> State
    requires { s.count + 1 < 2 ^ 64 }
    ensures { result ≡ applied e s }
{
    match e {
        Effect::Next { rd, value, pc } => match rd.number() {
            0 => s.advance(pc),
            _ => s.write(rd, value).advance(pc),
        },
        Effect::Halt(why) => s.halt(why),
    }
}

// At most budget steps, while none has stopped.
pub fn run_steps(s: State, mem: &mut [u8], row: &mut RowBytes, grant: Grant, budget: u64) -> State
    ensures { masked grant result (board mem.new row.new) ≡ ran budget (masked grant s (board mem.old row.old)) }
{
    let mut t = s;
    for _turn in 0..budget {
        if t.stop != 0 {
            return t;
        }
        if t.count >= FULL_COUNT {
            return t.halt(Cause::new(Stop::CountFull, 0));
        }
        let act = act_at(t.pc, &t.x, mem);
        let e = perform(grant.own, act, mem, row);
        t = apply(t, e);
    }
    t
}
