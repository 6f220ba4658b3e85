// What is handed out of an accepted file, record by record: the crate is its specs/ (the words) and its proofs/ (the theorems in HandingTheorems).

#![tactic(auto)]
