// Words in shape are exactly the encodings of states that keep the rules, and every move, run and join keeps them: theory alone, in specs/.
#![tactic(auto)]
