// Theorems about the numbers over all sheets.
