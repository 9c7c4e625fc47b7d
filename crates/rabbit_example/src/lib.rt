// First units of Rabbit that annex C.4 prints, computed from the cipher's definitions. There is no code here: proofs/ has the claims.

#![tactic(auto)]
