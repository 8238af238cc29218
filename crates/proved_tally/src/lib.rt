// Theorems about the numbers of one sheet. No code: the statements stand in specs/, what proves them in proofs/.
