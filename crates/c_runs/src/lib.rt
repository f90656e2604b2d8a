// The C interface, steps and runs. A state is lent as its record, a buffer of one slot, which is read, run and
// written back. Without masks all words are the recipe's own.
#![tactic(auto)]

ghost use Rattle.std.specs.Prelude.{◌≡◌};
ghost use Rattle.answers.specs.Outcomes.{outcome};
ghost use Rattle.boards.specs.Boards.{board};
ghost use Rattle.resume.specs.Resuming.{bench};
ghost use Rattle.run_calls.specs.Runs.{step_call, run_call, resume_call};

use boards::Grant;
use resume::run_slot;
use run_calls::answer;

// One step. Refuses with 1, 2, 3, 5, 14 and 15.
pub fn phuyurik_step(state: &mut [u8; 144], mem: &mut [u8], row: &mut [u8], word: &mut usize) -> u32
    ensures { outcome result (word.new, bench (board mem.new row.new) state.new) ≡ step_call (bench (board mem.old row.old) state.old) word.old }
{
    let mut retired = 0;
    answer(
        run_slot(mem, row, state, 0, Grant::alone(), 1),
        &mut retired,
        word,
    )
}

// A run of at most budget steps. Refuses with 1, 2, 3, 5, 14 and 15.
pub fn phuyurik_run(
    state: &mut [u8; 144],
    mem: &mut [u8],
    row: &mut [u8],
    budget: u64,
    retired: &mut u64,
    word: &mut usize,
) -> u32
    ensures { outcome result ((retired.new, word.new), bench (board mem.new row.new) state.new) ≡ run_call budget (bench (board mem.old row.old) state.old) retired.old word.old }
{
    answer(
        run_slot(mem, row, state, 0, Grant::alone(), budget),
        retired,
        word,
    )
}

// Reads slot k, runs it for at most budget steps and writes it back. Refuses with 1 to 5, 14 and 15.
pub fn phuyurik_run_slot(
    mem: &mut [u8],
    row: &mut [u8],
    slots: &mut [u8],
    k: usize,
    budget: u64,
    retired: &mut u64,
    word: &mut usize,
) -> u32
    ensures { outcome result ((retired.new, word.new), bench (board mem.new row.new) slots.new) ≡ resume_call budget k (bench (board mem.old row.old) slots.old) retired.old word.old }
{
    answer(
        run_slot(mem, row, slots, k, Grant::alone(), budget),
        retired,
        word,
    )
}
