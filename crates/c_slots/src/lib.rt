// The C interface, slots. A state is lent as its record, a buffer of one slot.
#![tactic(auto)]

ghost use Rattle.std.specs.Prelude.{◌≡◌};
ghost use Rattle.answers.specs.Outcomes.{outcome};
ghost use Rattle.records.specs.Records.{record_of};
ghost use Rattle.c_slots.specs.Slots.{lent_entry, write_call, read_call};

use answers::{Refusal, reply};
use records::write_record;
use state::State;

// Slot k is asked for before the state is read.
fn put_lent(state: &[u8; 144], slots: &mut [u8], k: usize) -> Result<(), Refusal>
    ensures { outcome result slots.new ≡ lent_entry state.now k slots.old }
{
    if !slots::is_slot(slots, k) {
        return Err(Refusal::Slot);
    }
    let s = slots::read_slot(state, 0)?;
    slots::put(slots, k, s);
    Ok(())
}

fn record_of(s: State) -> [u8; 144]
    ensures { result ≡ record_of s }
{
    let mut record = [0; 144];
    write_record(&mut record, s);
    record
}

// A state into slot k. Refuses with 4, 5, 14 and 15.
pub fn phuyurik_write_slot(state: &[u8; 144], slots: &mut [u8], k: usize) -> u32
    ensures { outcome result (tt, slots.new) ≡ write_call state.now k slots.old }
{
    reply(put_lent(state, slots, k), &mut ())
}

// The state in slot k. Refuses with 4, 5, 14 and 15.
pub fn phuyurik_read_slot(state: &mut [u8; 144], slots: &[u8], k: usize) -> u32
    ensures { outcome result (state.new, tt) ≡ read_call k slots.now state.old }
{
    reply(slots::read_slot(slots, k).map(record_of), state)
}
