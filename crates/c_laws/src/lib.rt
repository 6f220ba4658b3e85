// What C's calls finish, bai2_read answers with the writer's own summary, and each public call has one answer: the crate is its specs/ (the words) and its
// proofs/ (the theorems in CTheorems and OneAnswer).

#![tactic(auto)]
