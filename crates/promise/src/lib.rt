// What the screen and the evaluator promise together, what that is to those who read the listing or call from C, and computed cases:
// statements in specs/, and their proofs in proofs/. There is nothing to call.
#![tactic(auto)]
