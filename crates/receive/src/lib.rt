// The one-record call: what the first record of any byte string gets. Definitions and proofs only: in_place is the code that is stated by them.
#![tactic(auto)]
