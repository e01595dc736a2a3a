//! Requests and stored records as JSON texts, and the texts of the replies.
#![tactic(auto)]

pub mod field_names;
mod fields;
mod forms;
mod json_values;
mod kinds;
mod line_room;
mod moment_strings;
mod plain_reader;
mod plain_texts;
pub mod reading;
pub mod record_reading;
pub mod record_texts;
pub mod replying;
mod report_reading;
mod stored_lines;
mod text_fronts;
mod usual_lines;
pub mod usual_records;
pub mod usual_requests;
mod voucher_lines;
mod whats;
