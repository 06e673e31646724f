// The query call and the three demands: no code, the definitions are in `specs/` and what is shown of them in `proofs/`.
#![tactic(auto)]
