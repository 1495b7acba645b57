#![tactic(auto)]

// Laws only: document 01's starred examples hold of the definitions.
