// Theorems about the payload grammar, blocks back to back, and the tokens of a text.

#![tactic(auto)]
