// Theorems about texts: UTF-8, escapes, tab stops, lines.

#![tactic(auto)]
