// A register, S(0) and the first bytes of Decim v2 that annex C.5 prints, computed from the cipher's definitions. There is no code here: proofs/ has the claims.

#![tactic(auto)]
