//! Queries and forms of HTTP requests (docs/FORMATS.md, "Query and form"): the page that a query asks for, the input that a
//! form gives, or the place of its bad literal.
#![tactic(auto)]

mod first_text;
mod form_stop;
mod forms;
mod laws;
mod page_query;
mod queries;
mod query_stop;
mod set_values;

pub use form_stop::FormStop;
pub use forms::read_form;
pub use laws::one_form_meaning;
pub use page_query::PageQuery;
pub use queries::read_query;
pub use query_stop::QueryStop;
