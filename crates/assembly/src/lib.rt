// No code: which lines the assembler reads, what each gives, and the theorems about them.
#![tactic(auto)]
