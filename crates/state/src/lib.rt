// The state of a recipe's run, by value.
#![tactic(auto)]

ghost use Rattle.std.specs.Prelude.{◌≡◌, cond, ◌+◌, ◌<◌, ◌^◌, get_or};
ghost use Rattle.state.specs.States.{register_of, register_set, written, advanced, halted, fresh, no_state, form_checked};

use answers::{Cause, Refusal};
use isa::Reg;

#[derive(Clone, Copy)]
pub struct State {
    pub pc: u32,
    // x1 to x31
    pub x: [u32; 31],
    // the steps retired
    pub count: u64,
    // a stop number and no `Stop`; a state may be malformed, so any
    pub stop: u8,
    // where it stopped; 0 where no address belongs to the stop
    pub address: u32,
}

// A register's value; x0 reads 0.
pub fn read(x: &[u32; 31], r: Reg) -> u32
    ensures { result ≡ register_of x.now r }
{
    match r.number() as usize {
        0 => 0,
        n => x.get(n - 1).copied().unwrap_or(0),
    }
}

// A register has v; a write to x0 is dropped. Every element is stored, at an index that is known once
// the loop is unrolled: a store at n - 1 would have the whole array copied out of the state and back,
// and of an `if` in the loop the compiler makes just that store.
fn write(x: &mut [u32; 31], r: Reg, v: u32)
    ensures { x.new ≡ register_set r v x.old }
{
    let n = r.number() as usize;
    for (k, word) in x.iter_mut().enumerate() {
        *word = (k + 1 == n).then_some(v).unwrap_or(*word);
    }
}

impl State {
    // The start of a recipe.
    pub fn fresh() -> State
        ensures { result ≡ fresh }
    {
        State {
            pc: 0,
            x: [0; 31],
            count: 0,
            stop: 0,
            address: 0,
        }
    }

    // The state that definitions name where there is none: malformed, so that it is refused wherever it is
    // used.
    pub fn none() -> State
        ensures { result ≡ no_state }
    {
        State {
            pc: 0,
            x: [0; 31],
            count: 0,
            stop: 255,
            address: 0,
        }
    }

    // A register has v.
    pub fn write(self, r: Reg, v: u32) -> State
        ensures { result ≡ written r v self }
    {
        let mut x = self.x;
        write(&mut x, r, v);
        State { x, ..self }
    }

    // A step is complete, and the next is at pc.
    pub fn advance(self, pc: u32) -> State
        requires { self.count + 1 < 2 ^ 64 }
        ensures { result ≡ advanced pc self }
    {
        State {
            pc,
            count: self.count + 1,
            ..self
        }
    }

    // A step stops, and changes nothing but the stop and its address.
    pub fn halt(self, why: Cause) -> State
        ensures { result ≡ halted why self }
    {
        State {
            stop: why.stop.number(),
            address: why.address,
            ..self
        }
    }

    // Refusals 5, 14 and 15. Where the state is read from a record, `zeros` says whether the bytes
    // after its stop number are zero; else it is true.
    pub fn check(self, zeros: bool) -> Result<(), Refusal>
        ensures { result ≡ form_checked zeros self }
    {
        if self.pc % 2 != 0 {
            return Err(Refusal::OddPc);
        }
        if self.stop > 11 {
            return Err(Refusal::StopNumber);
        }
        let located = matches!(self.stop, 3..=9 | 11);
        if !(zeros && (located || self.address == 0)) {
            return Err(Refusal::RecordEnd);
        }
        Ok(())
    }
}
