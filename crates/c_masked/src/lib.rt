// The C interface, steps and runs with masks: apart from those without, which are compiled with the masks that they have.
#![tactic(auto)]

ghost use Rattle.std.specs.Prelude.{◌≡◌};
ghost use Rattle.answers.specs.Outcomes.{outcome};
ghost use Rattle.boards.specs.Boards.{board, grant};
ghost use Rattle.resume.specs.Resuming.{shared_bench};
ghost use Rattle.run_calls.specs.Runs.{step_call, run_call, resume_call};

use boards::Grant;
use resume::run_slot;
use run_calls::answer;

// One step. Refuses with 1, 2, 3, 16, 5, 14 and 15.
pub fn phuyurik_step_masked(
    state: &mut [u8; 144],
    mem: &mut [u8],
    row: &mut [u8],
    own: u64,
    other: u64,
    word: &mut usize,
) -> u32
    ensures { outcome result (word.new, shared_bench (grant own other) (board mem.new row.new) state.new) ≡ step_call (shared_bench (grant own other) (board mem.old row.old) state.old) word.old }
{
    let mut retired = 0;
    answer(
        run_slot(mem, row, state, 0, Grant { own, other }, 1),
        &mut retired,
        word,
    )
}

// A run of at most budget steps. Refuses with 1, 2, 3, 16, 5, 14 and 15.
pub fn phuyurik_run_masked(
    state: &mut [u8; 144],
    mem: &mut [u8],
    row: &mut [u8],
    own: u64,
    other: u64,
    budget: u64,
    retired: &mut u64,
    word: &mut usize,
) -> u32
    ensures { outcome result ((retired.new, word.new), shared_bench (grant own other) (board mem.new row.new) state.new) ≡ run_call budget (shared_bench (grant own other) (board mem.old row.old) state.old) retired.old word.old }
{
    answer(
        run_slot(mem, row, state, 0, Grant { own, other }, budget),
        retired,
        word,
    )
}

// Reads slot k, runs it for at most budget steps and writes it back. Refuses with 1, 2, 3, 16, 4,
// 5, 14 and 15.
pub fn phuyurik_run_slot_masked(
    mem: &mut [u8],
    row: &mut [u8],
    slots: &mut [u8],
    k: usize,
    own: u64,
    other: u64,
    budget: u64,
    retired: &mut u64,
    word: &mut usize,
) -> u32
    ensures { outcome result ((retired.new, word.new), shared_bench (grant own other) (board mem.new row.new) slots.new) ≡ resume_call budget k (shared_bench (grant own other) (board mem.old row.old) slots.old) retired.old word.old }
{
    answer(
        run_slot(mem, row, slots, k, Grant { own, other }, budget),
        retired,
        word,
    )
}
