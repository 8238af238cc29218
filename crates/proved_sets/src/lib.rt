// Theorems about sets: what a table means, merging, canonical text, well-formedness.
