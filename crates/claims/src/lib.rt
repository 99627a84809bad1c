// What the program is proved to do, of every call and every list of calls, in specs/, with the theorems in proofs/: there is no code here.
#![tactic(auto)]
