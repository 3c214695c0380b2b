// Request Eight, "Import from candump", as definitions and what follows of them; the code is `imports`.
#![tactic(auto)]
