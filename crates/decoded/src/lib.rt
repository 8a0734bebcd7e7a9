// What a decoded record is like: shape without a fault, and decided by its first bytes. Proofs only; there is no code here.
#![tactic(auto)]
