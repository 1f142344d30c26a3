//! What `terminal_view` and `html_pages` draw: tests alone, of widgets in both faces, and of pages.
#![tactic(auto)]

#[cfg(test)]
mod tests;
