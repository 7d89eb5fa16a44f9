//! Tables that are read, the plans of tables, and start-ups of plans, by the public calls of `ec_table`, `ec_link` and `ec_start`.
#![tactic(auto)]

#[cfg(test)]
mod compare;
#[cfg(test)]
mod link;
#[cfg(test)]
mod startups;
#[cfg(test)]
mod table;
