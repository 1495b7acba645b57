#![tactic(auto)]

// Laws only: demand 3 as one theorem about the definitions that the contracts cite.
