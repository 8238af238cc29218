// Theorems about reading and measuring: at a brace, by line, by block.
