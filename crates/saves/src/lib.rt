// Demand 3: what a save may touch. Statements in `specs/`, theorems in `proofs/`, over sequences of calls on the machine; there is no code here.
#![tactic(auto)]
