// The ranges of a shard: definitions, no code.
