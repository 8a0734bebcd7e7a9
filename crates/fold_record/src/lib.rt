// The unchecked fold of one record's body. Definitions and proofs only: in_place is the code that is stated by them.
#![tactic(auto)]
