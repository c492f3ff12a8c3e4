// The sixteen marked examples, as a table about the rules and the text. No code.
#![tactic(auto)]
