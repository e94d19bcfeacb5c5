// A session that is paused and taken up again: a controller that is read from a sheet goes on as the one that was written out, on calls and on lent
// bytes. Statements in `specs/`, theorems in `proofs/`; there is no code here.
#![tactic(auto)]
