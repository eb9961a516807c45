//! What is sent is what the step table sends. Each function here has an empty body, and a law as its contract.
ghost use Rattle.attempt_log.specs.Moves.{AskedAreMoves, InitsAreMoves};

/// What `send_asked` does is the move of the step table that sends what is asked, for each attempt that stands there.
pub fn asked_are_moves()
    ensures { AskedAreMoves }
{}

/// What `send_init` does is the move that sends the Init.
pub fn inits_are_moves()
    ensures { InitsAreMoves }
{}
