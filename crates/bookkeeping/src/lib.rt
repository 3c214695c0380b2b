// What a book of logs is, what is added to it and found in it, and its summary, are said in specs/; what follows is proved in proofs/. There is no code here: `book` has it.
#![tactic(auto)]
