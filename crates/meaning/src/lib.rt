// What policies mean: no code, the definitions are in `specs/` and what is shown of them in `proofs/`.
#![tactic(auto)]
