// The answers to questions on an engine's tape.
use outcome::Refusal;
use symbol::Symbol;
use tape::Span;
