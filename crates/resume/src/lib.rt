// A run carried on from its slot.
#![tactic(auto)]

ghost use Rattle.std.specs.Prelude.{◌≡◌};
ghost use Rattle.answers.specs.Outcomes.{outcome};
ghost use Rattle.boards.specs.Boards.{board};
ghost use Rattle.resume.specs.Resuming.{shared_bench, resume_entry};

use answers::Refusal;
use boards::{Grant, check_start};
use engine::run_steps;
use slots::{put, read_slot};

// Reads slot k, runs it for at most budget steps, writes it back and answers the number retired. Refuses
// with 1, 2, 3, 16, 4, 5, 14 and 15; without masks, granted `Grant::alone()`, never with 16.
pub fn run_slot(
    mem: &mut [u8],
    row: &mut [u8],
    slots: &mut [u8],
    k: usize,
    grant: Grant,
    budget: u64,
) -> Result<u64, Refusal>
    ensures { outcome result (shared_bench grant (board mem.new row.new) slots.new) ≡ resume_entry budget k (shared_bench grant (board mem.old row.old) slots.old) }
{
    check_start(mem, row, grant)?;
    let s = read_slot(slots, k)?;
    // checked: a row has 512 bytes
    let t = run_steps(s, mem, row.as_mut_array().unwrap(), grant, budget);
    put(slots, k, t);
    Ok(t.count - s.count)
}
