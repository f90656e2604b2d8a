// Theorems about what words mean and what the words of instructions are, and no function: see proofs/Words.antt.
#![tactic(auto)]
