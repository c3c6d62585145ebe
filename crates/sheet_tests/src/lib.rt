#![tactic(auto)]

#[cfg(test)]
mod drafts;
#[cfg(test)]
mod sheets;
#[cfg(test)]
mod strips;
