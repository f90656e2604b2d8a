// A state as its record of 144 bytes, and back.
#![tactic(auto)]

ghost use Rattle.std.specs.Prelude.{◌≡◌, length};
ghost use Rattle.records.specs.Records.{record_of, state_of, record_checked};

use answers::Refusal;
use octets::load;
use state::State;
use stores::store;

// A state into its record, and nothing beside it. The part is a slice of the caller's slots, so its length
// is asked for and not a type.
pub fn write_record(part: &mut [u8], s: State)
    requires { length part.old ≡ 144 }
    ensures { part.new ≡ record_of s }
{
    store::<4>(part, 0, u64::from(s.pc));
    for (i, x) in s.x.iter().enumerate() {
        store::<4>(part, 4 + 4 * i, u64::from(*x));
    }
    store::<8>(part, 128, s.count);
    // the stop number, and three zeros after it
    store::<4>(part, 136, u64::from(s.stop));
    store::<4>(part, 140, u64::from(s.address));
}

pub fn read_record(part: &[u8]) -> State
    requires { length part.now ≡ 144 }
    ensures { result ≡ state_of part.now }
{
    let mut x = [0; 31];
    for (i, register) in x.iter_mut().enumerate() {
        *register = load::<4>(part, 4 + 4 * i) as u32;
    }
    State {
        pc: load::<4>(part, 0) as u32,
        x,
        count: load::<8>(part, 128),
        stop: part[136],
        address: load::<4>(part, 140) as u32,
    }
}

// Whether the record may be read: refusals 5, 14 and 15.
pub fn check_record(part: &[u8]) -> Result<(), Refusal>
    requires { length part.now ≡ 144 }
    ensures { result ≡ record_checked part.now }
{
    // the stop number, and three bytes after it
    let zeros = load::<4>(part, 136) / 256 == 0;
    read_record(part).check(zeros)
}
