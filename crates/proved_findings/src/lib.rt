// Lines that look like a block and are none: which of them are found, and how a caller goes from one to the next. Statements and proofs, and no code.
