// Worked examples: 01 "Sums to check by hand", by computation. Definitions and proofs only; nothing runs.
#![tactic(auto)]
