// The rules of the two linked ledgers, the two validators over them and the runs of their calls. This crate has definitions
// and theorems, and no function; the validators' contracts cite its definitions.
#![tactic(auto)]
