// No code: what the customer is promised, as theorems over the definitions that the contracts cite.
#![tactic(auto)]
