// No code: the ranges of a settled form, and that nothing is shorter than it.
