// The libraries on worked examples.
#![tactic(auto)]

#[cfg(test)]
mod least_chain;
#[cfg(test)]
mod page_read;
#[cfg(test)]
mod page_text;
#[cfg(test)]
mod sheet_calls;
#[cfg(test)]
mod sheets;
#[cfg(test)]
mod strengths;
