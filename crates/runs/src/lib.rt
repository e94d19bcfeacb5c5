// Sequences of calls on a controller: they are the machine's, so what is proved of it holds of them. Statements in `specs/`, theorems in `proofs/`;
// there is no code here.
#![tactic(auto)]
