//! What `http_requests` reads of bytes, in one piece and byte by byte: tests alone.
#![tactic(auto)]

#[cfg(test)]
mod tests;
