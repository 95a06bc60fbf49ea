// That each public function's promise leaves one answer, as theorems on the promises themselves: specs/ says what that is, proofs/ proves it. There is no code here.
#![tactic(auto)]
