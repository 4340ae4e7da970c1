// A burst on several tapes: the ordinary steps of a machine, those that stay inside the cells of every tape. It decides
// nothing: it stops before the first step that needs a decision, and leaves that step to its caller.
#![tactic(auto)]

pub mod inner;
