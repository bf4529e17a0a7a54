// What is promised of every run of the home validator, over the definitions that the contracts of its calls cite. It has
// definitions and theorems, and no function.
#![tactic(auto)]
