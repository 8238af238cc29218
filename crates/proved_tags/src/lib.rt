// Theorems about reading with the language tag looked at.
