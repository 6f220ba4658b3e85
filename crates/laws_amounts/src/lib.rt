// The amounts of an accepted file, as they were given: the crate is its specs/ (the words) and its proofs/ (the theorems in AmountTheorems).

#![tactic(auto)]
