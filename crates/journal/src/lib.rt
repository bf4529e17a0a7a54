// The journal as a whole: what it is made of and what reading it gives, over the definitions that the contracts of the
// block reader and the block writer cite. It has definitions and a theorem, and no function.
#![tactic(auto)]
