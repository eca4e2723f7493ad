// The rules of the draw. No code: the definitions that every contract and promise cites are in specs/, over a width; what is true of
// them is in proofs/.
#![tactic(auto)]
