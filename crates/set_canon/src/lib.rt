// Canonical text, and what a class may be: definitions, no code.

#![tactic(auto)]
