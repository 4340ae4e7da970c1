// Compares what the port answers with a row, number by number. Each function returns the place past what it compared,
// or `rows::DIFFERS` where the row has another number.
pub(crate) mod answers;
pub(crate) mod engines;
pub(crate) mod numbers;
