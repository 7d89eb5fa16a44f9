//! What frames and firmware steps do to a slave, and what its objects answer to messages, by the public calls of `ec_slave` and `ec_coe`.
#![tactic(auto)]

#[cfg(test)]
mod compare;
#[cfg(test)]
mod kinds;
#[cfg(test)]
mod messages;
#[cfg(test)]
mod tests;
