// The two readers at a brace answer alike. No code of its own.
