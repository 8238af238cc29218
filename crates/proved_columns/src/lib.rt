// Theorems about the column settings of a table.
