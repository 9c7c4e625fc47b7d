// First units of KCipher-2 that annex C.6 prints, computed from the cipher's definitions. There is no code here: proofs/ has the claims.

#![tactic(auto)]
