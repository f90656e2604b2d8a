// Slots: states kept as records of 144 bytes, one after the other in a lent buffer.
#![tactic(auto)]

ghost use Rattle.std.specs.Prelude.{◌≡◌, ◌+◌, ◌*◌, ◌≤◌, length};
ghost use Rattle.answers.specs.Outcomes.{outcome};
ghost use Rattle.records.specs.Records.{record_of};
ghost use Rattle.slots.specs.Slots.{slot_there, slot_set, write_entry, read_entry};

use answers::Refusal;
use records::{check_record, read_record, write_record};
use state::State;

const RECORD: usize = 144;

// Whether the buffer has whole slots, and k is one of them.
pub fn is_slot(slots: &[u8], k: usize) -> bool
    ensures { result ≡ slot_there k slots.now }
{
    slots.len() % RECORD == 0 && k < slots.len() / RECORD
}

// The slot's bytes are lent on to a writer that knows one record.
pub fn put(slots: &mut [u8], k: usize, s: State)
    requires { 144 * k + 144 ≤ length slots.old }
    ensures { slots.new ≡ slot_set k (record_of s) slots.old }
{
    let start = RECORD * k;
    write_record(&mut slots[start..start + RECORD], s);
}

// A state into slot k. Refuses with 4, 5, 14 and 15.
pub fn write_slot(slots: &mut [u8], k: usize, s: State) -> Result<(), Refusal>
    ensures { outcome result slots.new ≡ write_entry k s slots.old }
{
    if !is_slot(slots, k) {
        return Err(Refusal::Slot);
    }
    s.check(true)?;
    put(slots, k, s);
    Ok(())
}

// The state in slot k. Refuses with 4, 5, 14 and 15.
pub fn read_slot(slots: &[u8], k: usize) -> Result<State, Refusal>
    ensures { outcome result tt ≡ read_entry k slots.now }
{
    if is_slot(slots, k) {
        let at = RECORD * k;
        let part = &slots[at..at + RECORD];
        check_record(part)?;
        Ok(read_record(part))
    } else {
        Err(Refusal::Slot)
    }
}
