// Theorems alone: demand 3 and the tally, said of the bytes that calls of the run leave.
#![tactic(auto)]
