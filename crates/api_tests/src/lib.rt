// Tests of what only calls show, on values worked out by hand: lists, slots of a sweep, a long sheet, words.
#![tactic(auto)]

#[cfg(test)]
mod lists;
#[cfg(test)]
mod setting;
#[cfg(test)]
mod sheets;
#[cfg(test)]
mod slots;
#[cfg(test)]
mod stops;
#[cfg(test)]
mod words;
