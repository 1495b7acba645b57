#![tactic(auto)]

// Laws only: on the grid, location and area are exactly those of whole-number geometry, and a distance is within 2^-24 of a step of the exact one.
