// What a run is given, memory and row, and what it is granted of the row: the refusals of all three.
#![tactic(auto)]

ghost use Rattle.std.specs.Prelude.{◌≡◌};
ghost use Rattle.answers.specs.Checks.{passed};
ghost use Rattle.boards.specs.Boards.{board, alone, start_checked};

use answers::Refusal;
use fuses::check_row;

const LONGEST_MEMORY: usize = 65536;

// What a run is granted, and no step changes: its own words of the row, and those of the other recipe
// on it. Bit k of a mask says whose word k is.
#[derive(Clone, Copy)]
pub struct Grant {
    pub own: u64,
    pub other: u64,
}

impl Grant {
    // Of a call without masks: all words are its own, and none is the other's.
    pub fn alone() -> Grant
        ensures { result ≡ alone }
    {
        Grant {
            own: u64::MAX,
            other: 0,
        }
    }
}

// Refusals 1, 2, 3 and 16.
pub fn check_start(mem: &[u8], row: &[u8], grant: Grant) -> Result<(), Refusal>
    ensures { result ≡ start_checked (board mem.now row.now) grant passed }
{
    if mem.len() > LONGEST_MEMORY {
        return Err(Refusal::MemoryTooLong);
    }
    check_row(row)?;
    if grant.own & grant.other != 0 {
        return Err(Refusal::MasksShare);
    }
    Ok(())
}
