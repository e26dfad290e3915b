// What is done to a reader's library between two calls, and reached by no packet. The definitions are in specs/, the promises in proofs/.
#![tactic(auto)]
