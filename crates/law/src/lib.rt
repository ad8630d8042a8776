// The law that the register keeps over whole runs: its statements are in specs/, its proof in proofs/. No code.
#![tactic(auto)]
