// What readers of cards from before answer to the cards that are written now. No function of its own.
