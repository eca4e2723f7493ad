// What a reader may rely on. No code: the statements are in specs/, their proofs in proofs/ under the same names.
#![tactic(auto)]
