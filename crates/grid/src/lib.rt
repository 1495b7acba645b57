#![tactic(auto)]

// Laws only: whole-number geometry, and the grid.
