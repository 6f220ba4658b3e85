// What the writer finishes is accepted and reads back as given: the crate is its specs/ (the words) and its proofs/ (the theorem in WriterTheorems).

#![tactic(auto)]
