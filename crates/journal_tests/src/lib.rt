//! Tests of the checker of journals, by public calls: that it answers at all, which no clause says, and some texts that
//! it accepts and refuses.
#![tactic(auto)]

#[cfg(test)]
mod journals;
