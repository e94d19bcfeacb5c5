// Sequences of the exported calls on lent bytes: they are the machine's, so what is proved of it reaches a host's bytes. Statements in `specs/`,
// theorems in `proofs/`; there is no code here.
#![tactic(auto)]
