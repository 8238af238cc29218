// Laws for proofs that walk code by hand; no code.

#![tactic(auto)]
