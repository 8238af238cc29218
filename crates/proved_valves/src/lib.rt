// Theorems about the dealers' table.
