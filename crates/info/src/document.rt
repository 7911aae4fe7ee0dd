// No code: what the document of an info file says, and what the answer of its reader means.
