// Runs of offered events: demand 3's definitions and theorems stand beside this file. There is no code here.
#![tactic(auto)]
