// What the listing of a whole good journal is, over the definitions of the journal and of its listing. It has definitions and
// theorems, and no function.
#![tactic(auto)]
