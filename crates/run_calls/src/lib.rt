// What a run's answer comes to in a C call.
#![tactic(auto)]

ghost use Rattle.std.specs.Prelude.{◌≡◌};
ghost use Rattle.answers.specs.Outcomes.{outcome};
ghost use Rattle.run_calls.specs.Runs.{answered};

use answers::{Refusal, reply};

// The number retired in its place; or a refusal's number, and the word that 3 tells in its own.
pub fn answer(done: Result<u64, Refusal>, retired: &mut u64, word: &mut usize) -> u32
    ensures { outcome result (retired.new, word.new) ≡ answered done retired.old word.old }
{
    if let Some(k) = done.err().and_then(|why| why.word()) {
        *word = usize::from(k);
    }
    reply(done, retired)
}
