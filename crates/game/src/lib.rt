// The meaning of a formula row, and the game on positions that decides it (specs/). It has no code of its own.
#![tactic(auto)]
