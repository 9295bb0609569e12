// What a console lives through, as statements: lists of calls as bytes, and what an outage leaves. There is no function here; crate
// `replay` has those that the statements are the contracts of.
#![tactic(auto)]
