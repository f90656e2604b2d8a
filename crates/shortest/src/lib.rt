// No code: which halfword to try for an instruction, and the theorem that no other need be tried.
#![tactic(auto)]
