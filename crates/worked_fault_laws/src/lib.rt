//! Worked inputs of which each has a fault by one case, or one way, of its definition, and by none but this: so none
//! can be left out, or the input would be taken or have another fault.
#![tactic(auto)]

mod event_ways;
mod needed;
mod report_ways;
mod script_ways;

pub use event_ways::{
    each_form_of_an_event_is_needed, each_number_of_an_event_is_needed,
    each_place_of_an_event_is_needed, each_word_of_an_event_is_needed,
};
pub use needed::{
    each_case_of_a_check_is_needed, each_case_of_an_elaboration_is_needed,
    each_fault_of_a_text_is_needed, each_refusal_of_a_plan_is_needed,
    each_refusal_of_a_report_is_needed, each_refusal_of_a_script_is_needed,
    each_refusal_of_events_is_needed, each_refusal_of_tokens_is_needed,
};
pub use report_ways::{
    each_end_of_a_report_is_needed, each_fault_of_a_graph_is_needed,
    each_limit_of_a_history_is_needed, each_limit_of_a_log_is_needed,
    each_line_of_a_history_is_needed, each_line_of_a_log_is_needed,
    each_word_of_a_component_is_needed, each_word_of_a_history_is_needed,
};
pub use script_ways::{
    each_end_of_a_script_is_needed, each_form_of_a_statement_is_needed,
    each_number_of_a_statement_is_needed, each_place_of_a_statement_is_needed,
    each_word_of_a_statement_is_needed,
};
