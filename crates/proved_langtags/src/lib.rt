// Theorems about well-formed language tags.

#![tactic(auto)]
