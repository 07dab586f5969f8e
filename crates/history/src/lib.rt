// No code: steps, runs, and what is proved of every one.
#![tactic(auto)]
