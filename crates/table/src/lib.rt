// Every answer is a number of document 01's table: the definition and the theorems stand beside this file. There is no code here.
#![tactic(auto)]
