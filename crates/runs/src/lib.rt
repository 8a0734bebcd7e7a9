// Runs of any machine that is offered one thing after another: definitions and theorems stand beside this file. There is no code here.
#![tactic(auto)]
