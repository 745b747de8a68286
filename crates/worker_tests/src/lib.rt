//! Tests of the top call with several workers over files in memory: the text is that of one worker, two workers run at once,
//! one that waits for another is woken, and a fault with workers at work ends the run as it should.
#![tactic(auto)]

#[cfg(test)]
mod crowd;
#[cfg(test)]
mod handover;
#[cfg(test)]
mod meeting;
#[cfg(test)]
mod paused;
#[cfg(test)]
mod renders;
#[cfg(test)]
mod runs;
