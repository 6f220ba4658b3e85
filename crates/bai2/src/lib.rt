// The archive that C links, libbai2.a: each call of include/bai2.h as an export. An export makes the library's call of that name and promises what that call
// promises.

#![tactic(auto)]

pub mod joining;
pub mod reading;
pub mod writing;
