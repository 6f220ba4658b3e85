// Document 01 as definitions: the crate is its specs/. Its proofs/ are laws that code and theorems use.

#![tactic(auto)]
