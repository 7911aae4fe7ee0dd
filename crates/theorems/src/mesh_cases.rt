// Worked cases of mesh shards, in one table, and that all of them hold: specs/ and proofs/. No code of its own.
