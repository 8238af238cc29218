// Theorems about runs of lines.
