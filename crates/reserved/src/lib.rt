// Number 29 is reserved: document 01's list for an inception with its check and without. Proofs only; there is no code here.
#![tactic(auto)]
