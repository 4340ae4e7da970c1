// The inner functions of the plain engine's operations. They require that numbers lie inside their bounds.
pub mod look;
pub mod sizes;
pub mod words;
