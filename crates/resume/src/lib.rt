// States that bytes lead to can be saved and read back: they are well shaped, and their numbers fit. Proofs only; there is no code here.
#![tactic(auto)]
