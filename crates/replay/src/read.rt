// Reads what a row asks: its lists, its machine, the order of a run, a question, the settings of a timeline.
pub(crate) mod lines;
pub(crate) mod lists;
pub(crate) mod order;
pub(crate) mod question;
pub(crate) mod table;
pub(crate) mod timeline;
