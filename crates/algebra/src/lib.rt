#![tactic(auto)]

// Laws only: whole-number algebra for proofs, in specs/ and proofs/.
