// The home validator's calls, certificates of the far committee among them, and its runs: definitions and laws, and no function.
#![tactic(auto)]
