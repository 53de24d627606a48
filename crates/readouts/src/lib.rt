// Definitions and theorems alone: what a stated readout of a circuit comes to, and that it is what the coin lists of the run say.
#![tactic(auto)]
