// The refusals and the stops of the paper, and the number that each has. The shape of every entry is
// in specs/.
#![tactic(auto)]

ghost use Rattle.std.specs.Prelude.{◌≡◌};
ghost use Rattle.answers.specs.Answer.{of_result};
ghost use Rattle.answers.specs.Outcomes.{outcome};
ghost use Rattle.answers.specs.Refusals.{number_of, word_of};
ghost use Rattle.answers.specs.Replies.{told};
ghost use Rattle.answers.specs.Stops.{cause, stop_number};

#[derive(Clone, Copy)]
pub enum Refusal {
    MemoryTooLong,
    RowLength,
    // the lowest word whose record breaks the rules
    RowRecord(u8),
    Slot,
    OddPc,
    Room,
    NoInstruction,
    Field,
    NoShortForm,
    Unreadable,
    NumberNotAllowed,
    NoShortLine,
    OutputRoom,
    StopNumber,
    RecordEnd,
    MasksShare,
}

impl Refusal {
    pub fn number(self) -> u8
        ensures { result ≡ number_of self }
    {
        match self {
            Refusal::MemoryTooLong => 1,
            Refusal::RowLength => 2,
            Refusal::RowRecord(_) => 3,
            Refusal::Slot => 4,
            Refusal::OddPc => 5,
            Refusal::Room => 6,
            Refusal::NoInstruction => 7,
            Refusal::Field => 8,
            Refusal::NoShortForm => 9,
            Refusal::Unreadable => 10,
            Refusal::NumberNotAllowed => 11,
            Refusal::NoShortLine => 12,
            Refusal::OutputRoom => 13,
            Refusal::StopNumber => 14,
            Refusal::RecordEnd => 15,
            Refusal::MasksShare => 16,
        }
    }

    // The word that refusal 3 tells; no other tells one.
    pub fn word(self) -> Option<u8>
        ensures { result ≡ word_of self }
    {
        match self {
            Refusal::RowRecord(k) => Some(k),
            _ => None,
        }
    }
}

// Why a run does not go on, by the paper's numbers.
#[derive(Clone, Copy)]
pub enum Stop {
    Ecall = 1,
    Ebreak = 2,
    IllegalInstruction = 3,
    FetchOutside = 4,
    LoadMisaligned = 5,
    LoadOutside = 6,
    StoreMisaligned = 7,
    StoreOutside = 8,
    AlreadyBurnt = 9,
    CountFull = 10,
    NotOwned = 11,
}

impl Stop {
    pub fn number(self) -> u8
        ensures { result ≡ stop_number self }
    {
        self as u8
    }
}

// A stop, and the address that belongs to it.
#[derive(Clone, Copy)]
pub struct Cause {
    pub stop: Stop,
    pub address: u32,
}

impl Cause {
    pub fn new(stop: Stop, address: u32) -> Cause
        ensures { result ≡ cause stop address }
    {
        Cause { stop, address }
    }
}

// What a call of the C interface returns, 0 or the number of its refusal. The value goes to its place,
// which stays as it was where the call is refused.
pub fn reply<T: Copy>(answer: Result<T, Refusal>, place: &mut T) -> u32
    ensures { outcome result place.new ≡ told (of_result answer) place.old }
{
    match answer {
        Ok(value) => {
            *place = value;
            0
        }
        Err(why) => u32::from(why.number()),
    }
}
