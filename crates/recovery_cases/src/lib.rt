// Lists of calls for timely recovery, computed, and no code: for each statement of the crate recovery one in which all that it supposes holds, and for
// each supposition one in which it alone fails and the bound is missed.
#![tactic(auto)]
