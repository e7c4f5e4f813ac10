// What C calls of capi_reports: each export calls the function of that name there and states its clauses. A library for other crates exports nothing itself.
#![tactic(auto)]

mod auditing;
mod drifts;
mod full;
