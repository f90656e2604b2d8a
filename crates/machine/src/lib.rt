// The machine: the entries that refuse bad input before the engine starts.
#![tactic(auto)]

ghost use Rattle.std.specs.Prelude.{◌≡◌};
ghost use Rattle.answers.specs.Outcomes.{outcome};
ghost use Rattle.boards.specs.Boards.{board};
ghost use Rattle.engine.specs.Steps.{masked};
ghost use Rattle.machine.specs.Entries.{step_entry, run_entry};

use answers::Refusal;
use boards::{Grant, check_start};
use engine::run_steps;
use state::State;

// What `run` answers: the last state and the number retired.
#[derive(Clone, Copy)]
pub struct Ran {
    pub state: State,
    pub retired: u64,
}

// A run of at most budget steps. Memory and row are lent apart, as in C. Refuses with 1, 2, 3, 16, 5, 14
// and 15; without masks, granted `Grant::alone()`, never with 16.
pub fn run(
    s: State,
    mem: &mut [u8],
    row: &mut [u8],
    grant: Grant,
    budget: u64,
) -> Result<Ran, Refusal>
    ensures { outcome result (board mem.new row.new) ≡ run_entry budget (masked grant s (board mem.old row.old)) }
{
    check_start(mem, row, grant)?;
    s.check(true)?;
    // checked: a row has 512 bytes
    let state = run_steps(s, mem, row.as_mut_array().unwrap(), grant, budget);
    Ok(Ran {
        state,
        retired: state.count - s.count,
    })
}

// One step: a run of one. Refuses as a run does.
pub fn step(s: State, mem: &mut [u8], row: &mut [u8], grant: Grant) -> Result<State, Refusal>
    ensures { outcome result (board mem.new row.new) ≡ step_entry (masked grant s (board mem.old row.old)) }
{
    Ok(run(s, mem, row, grant, 1)?.state)
}
