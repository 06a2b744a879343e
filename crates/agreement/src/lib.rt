// The rules agree with the independent second program: its own random traces, and its answers, as theorems.
#![tactic(auto)]
