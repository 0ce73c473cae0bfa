//! Confluence of rules: where all ambiguities are resolved, what comes from the rules has a reducible greatest word.
#![tactic(auto)]

mod completion;
mod laws;

pub use completion::{
    ambiguities_are_kept, generators_are_kept, nonzero_is_not_below, nonzero_is_outside,
    normal_forms_are_shaped, normal_forms_stay_typed, pushed_rules_are_made,
    resolved_at_once_is_kept, resolved_below_pending, resolved_where_closed,
    rests_have_letters_below, rules_are_inside, rules_stay_typed, s_polynomials_are_shaped,
    s_polynomials_stay_typed, start_is_kept, typed_has_no_empty_word, zero_is_inside,
};
pub use laws::{
    ideals_stay_inside, normal_forms_are_reduced, places_of_one_word, reducible_below,
    reducible_in_ideal, rests_below_are_zero, rests_of_ideal_are_zero, rows_apart_differ,
    zero_rests_are_inside, zero_rests_are_resolved,
};
