// Theorems about blocks composed anyhow: merges of several sets, and canonical texts back to back.
