// The three demands, as theorems over the calls: nothing runs here. Rests on the crates that have them, `layout`, `questions`, `saw`, `questions` and `session`.
#![tactic(auto)]
