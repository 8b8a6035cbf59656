// The cooperative bucket's state as words lent by a caller outside Rattle: specs/ has the definitions, rows, and that words and state say the same. The code
// is in coop_c_words.
#![tactic(auto)]
