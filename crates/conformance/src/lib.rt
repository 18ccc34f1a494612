// The rules of the public text, Color Control, as definitions of their own, and where the port's are theirs. No code: specs/ has
// the text's rules and the theorems, a file of each for every subject.
#![tactic(auto)]
